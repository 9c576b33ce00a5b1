//! The lines of completed tables.

use dl_base::Items;
use std::marker::Model;

/// A line of completed tables. Contracts see it as its bytes, without a line end.
#[derive(Debug, Drop)]
pub struct TableLine {
    text: Vec<u8>,
}

impl Model for TableLine {
    ghost use Rattle.std.specs.Prelude.{ℕ, List};

    ghost Value = { List ℕ };

    ghost view = { λ line. line.text.items };
}

impl TableLine {
    ghost use Rattle.std.specs.Prelude.{◌≡◌};

    /// The line of these bytes.
    pub fn new(text: Vec<u8>) -> TableLine
        ensures { result ≡ text.items }
    {
        TableLine { text }
    }

    /// Its bytes, without a line end. It takes no memory.
    pub fn text(&self) -> &[u8]
        ensures { result.now ≡ self.now }
    {
        self.text.as_slice()
    }
}

/// The lines of completed tables, in order.
pub type TableLines = Items<TableLine>;
