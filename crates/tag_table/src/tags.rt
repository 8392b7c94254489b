// The tags that a call reads and prints by.
ghost use Rattle.std.specs.Prelude.{◌≡◌, true};
ghost use Rattle.model.specs.TagTable.{are_tags};

// The default tags where the table is empty, and otherwise those of a table that was checked.
#[derive(Clone, Copy)]
pub struct Tags<'a> {
    pub(crate) table: &'a [u8],
    pub ghost checked: { are_tags table.now ≡ true },
}
