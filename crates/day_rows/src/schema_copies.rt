//! Copies of schemas and of their tables.
ghost use Rattle.std.specs.Prelude.{◌≡◌, IfOk};

use crate::schema::{Kinds, Schema, Shape};
use q_values::{Kind, Names, NoMemory, Sym};
use std::alloc::Global;

fn copied_names(alloc: Global, names: &[Sym]) -> Result<Names, NoMemory>
    ensures { IfOk result (λ copy. copy ≡ names.now) }
{
    let mut copy = Names::new(alloc);
    for name in names {
        copy.push(Sym::copied(alloc, name.bytes())?)?;
    }
    Ok(copy)
}

fn copied_kinds(alloc: Global, kinds: &[Kind]) -> Result<Kinds, NoMemory>
    ensures { IfOk result (λ copy. copy ≡ kinds.now) }
{
    Kinds::from_vec(alloc, Vec::from_slice(alloc, kinds)?)
}

impl Shape {
    /// The same table.
    pub fn copied(&self, alloc: Global) -> Result<Shape, NoMemory>
        ensures { IfOk result (λ copy. copy ≡ self.now) }
    {
        Ok(Shape {
            table: Sym::copied(alloc, self.table.bytes())?,
            names: copied_names(alloc, self.names.as_slice())?,
            kinds: copied_kinds(alloc, self.kinds.as_slice())?,
        })
    }
}

impl Schema {
    /// The same tables.
    #[tactic(auto, using(crate::proofs::BlockLemmas::take_more_got))]
    pub fn copied(&self, alloc: Global) -> Result<Schema, NoMemory>
        ensures { IfOk result (λ copy. copy ≡ self.now) }
    {
        let mut shapes = Vec::new(alloc);
        for i in 0..self.len() {
            shapes.push(self.at(i).copied(alloc)?)?;
        }
        // `get` says that the tables are those of a schema, also where there are none.
        let _first = self.get(0);
        Ok(Schema::from_vec(shapes))
    }
}
