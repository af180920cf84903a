//! Values while they are computed: atoms, and vectors that are lent or made.
ghost use Rattle.std.specs.Prelude.{◌≡◌, ◌≢◌, [], ◌∷◌, replicate, IfOk};
ghost use Rattle.q_values.specs.Atom.{kind_of};
ghost use Rattle.q_values.specs.Tree.{tree};
ghost use Rattle.q_verbs.specs.Sides.{side_kind, items_of};
ghost use Rattle.qsql_values.specs.Values.{items_in, formed_as};
ghost use Rattle.qsql_values.specs.Operands.{contents_of, operand_tree, kind_of_tree, HasItem};

use q_values::{Atom, Kind, NoMemory, Value, Vector};
use q_verbs::Side;
use std::alloc::Global;

/// A vector that is lent, or was made.
#[derive(Drop)]
pub enum Held<'a> {
    /// One that lies elsewhere.
    Lent(&'a Vector),
    /// One of its own.
    Made(Vector),
}

/// The value of an expression.
#[derive(Drop)]
pub enum Operand<'a> {
    /// One atom.
    Atom(Atom),
    /// A list of atoms: one for each row, or of a length of its own.
    Column(Held<'a>),
}

impl<'a> Held<'a> {
    /// Lends the vector.
    pub fn vector(&self) -> &Vector
        ensures { result.now ≡ contents_of self.now }
    {
        match self {
            Held::Lent(vector) => vector,
            Held::Made(vector) => vector,
        }
    }

    /// The vector, which is copied where it is lent.
    pub fn into_vector(self, alloc: Global) -> Result<Vector, NoMemory>
        ensures { IfOk result (λ v. v ≡ contents_of self.entry) }
    {
        match self {
            Held::Lent(vector) => vector.take(alloc, 0, vector.len()),
            Held::Made(vector) => Ok(vector),
        }
    }
}

/// A vector of this one atom.
pub fn single(alloc: Global, atom: &Atom) -> Result<Vector, NoMemory>
    ensures { IfOk result (λ v. v ≡ record { kind = kind_of atom.now; atoms = atom.now ∷ [] }) }
{
    let mut vector = Vector::new(alloc, atom.kind());
    if vector.push(atom.copy(alloc)?).is_err() {
        return Err(NoMemory);
    }
    Ok(vector)
}

#[tactic(auto, using(crate::proofs::OperandLemmas::gathered_zeros))]
/// A vector of `n` equal atoms.
pub fn repeated(alloc: Global, atom: &Atom, n: usize) -> Result<Vector, NoMemory>
    ensures { IfOk result (λ v. v ≡ record { kind = kind_of atom.now; atoms = replicate n atom.now }) }
{
    let one = single(alloc, atom)?;
    let indices = vec![in alloc; 0usize; n]?;
    let many = one.gather(alloc, &indices)?;
    Ok(many)
}

impl<'a> Operand<'a> {
    /// It, as a side of a verb.
    pub fn side(&self) -> Side<'_>
        ensures kind { side_kind result ≡ kind_of_tree (operand_tree self.now) }
        ensures items { items_of result ≡ (items_in (operand_tree self.now)).atoms }
    {
        match self {
            Operand::Atom(atom) => Side::Atom(atom),
            Operand::Column(held) => Side::Column(held.vector()),
        }
    }

    /// Its items: those of a vector, or the atom as a list of one.
    pub fn items(&self, alloc: Global) -> Result<Held<'_>, NoMemory>
        ensures { IfOk result (λ held. contents_of held ≡ items_in (operand_tree self.now)) }
    {
        match self {
            Operand::Atom(atom) => Ok(Held::Made(single(alloc, atom)?)),
            Operand::Column(held) => Ok(Held::Lent(held.vector())),
        }
    }

    /// The kind of its items.
    pub fn kind(&self) -> Kind
        ensures { result ≡ kind_of_tree (operand_tree self.now) }
    {
        match self {
            Operand::Atom(atom) => atom.kind(),
            Operand::Column(held) => held.vector().kind(),
        }
    }

    /// A result that has an item for each of this one: an atom where this is one.
    pub fn formed<'b>(&self, alloc: Global, made: Vector) -> Result<Operand<'b>, NoMemory>
        requires { HasItem (operand_tree self.now) made.atoms }
        ensures value { IfOk result (λ v. operand_tree v ≡ formed_as (operand_tree self.now) made) }
        ensures kind { IfOk result (λ v. kind_of_tree (operand_tree v) ≡ made.kind) }
    {
        match self {
            Operand::Atom(_) => {
                let _kind = made.kind();
                Ok(Operand::Atom(made.at(alloc, 0)?))
            }
            Operand::Column(_) => Ok(Operand::Column(Held::Made(made))),
        }
    }

    /// Its items, in memory of their own.
    pub fn into_items(self, alloc: Global) -> Result<Vector, NoMemory>
        ensures { IfOk result (λ v. v ≡ items_in (operand_tree self.entry)) }
    {
        match self {
            Operand::Atom(atom) => single(alloc, &atom),
            Operand::Column(held) => held.into_vector(alloc),
        }
    }

    /// The value, in memory of its own.
    pub fn into_value(self, alloc: Global) -> Result<Value, NoMemory>
        ensures { IfOk result (λ v. tree v ≡ operand_tree self.entry) }
    {
        match self {
            Operand::Atom(atom) => Ok(Value::Atom(atom)),
            Operand::Column(held) => Ok(Value::Vector(held.into_vector(alloc)?)),
        }
    }
}
