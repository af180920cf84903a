//! The rows of one side of a join as numbers.
ghost use Rattle.std.specs.Prelude.{◌≡◌, length};

/// The rows of one side: the number of each row's group, and its last key as a number.
#[derive(Drop)]
pub(crate) struct Line<'a> {
    /// The number of each row's group.
    pub codes: &'a [u32],
    /// Each row's last key.
    pub numbers: &'a [i64],
    /// Whether rows are in order by their groups, and then by their numbers, or else by their numbers alone.
    pub by_group: bool,
    pub ghost even: { length codes.now ≡ length numbers.now },
}
