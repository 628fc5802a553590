//! Tiles that are handed out, and tiles that wait for memory.
ghost use Rattle.std.specs.Prelude.{◌≡◌, [], OnErr, OnOk};
ghost use Rattle.version_book.specs.HeldTiles.{given_back, handed_out, has_mark, is_held, is_of, is_within, marked_if};
ghost use Rattle.version_book.specs.HeldTiles.{marked_within, strip_given_back, strip_handed_out, strip_taken_in, taken_in, unmarked, unmarked_of};

use layer_expr::name::Name;
use plane_base::Column;
use std::alloc::{AllocError, Global};
use tile_build::Strip;

/// A tile by its layer's name and its column.
#[derive(Drop)]
pub struct HeldTile {
    pub name: Name,
    pub column: Column,
    /// Whether it was given back for want of memory. It is handed out otherwise.
    pub marked: bool,
}

impl HeldTile {
    fn is_of(&self, name: &Name, column: Column) -> bool
        ensures { result ≡ is_of name.now column self.now }
    {
        // Most of those held are in other columns, and their names are not compared.
        if self.column != column {
            return false;
        }
        self.name.bytes() == name.bytes()
    }

    fn mark(&mut self, name: &Name, column: Column)
        ensures { self.new ≡ marked_if name.now column self.old }
    {
        if self.is_of(name, column) {
            self.marked = true;
        }
    }

    fn is_within(&self, name: &Name, first: u8, end: u8) -> bool
        ensures { result ≡ is_within name.now first end self.now }
    {
        let number = self.column.number();
        self.name.bytes() == name.bytes() && (first <= number && number < end)
    }

    fn mark_within(&mut self, name: &Name, first: u8, end: u8)
        ensures { self.new ≡ marked_within name.now first end self.old }
    {
        let within = self.is_within(name, first, end);
        self.marked = self.marked || within;
    }
}

/// The tiles that are handed out, and those that are marked.
#[derive(Drop)]
pub struct HeldTiles {
    pub list: Vec<HeldTile>,
}

impl HeldTiles {
    pub fn new(alloc: Global) -> HeldTiles
        ensures { result.list.items ≡ [] }
    {
        HeldTiles {
            list: Vec::new(alloc),
        }
    }

    /// Whether a tile is handed out or marked.
    pub fn has(&self, name: &Name, column: Column) -> bool
        ensures { result ≡ is_held name.now column self.now.list.items }
    {
        self.list.iter().any(|tile| tile.is_of(name, column))
    }

    /// Whether a tile of a layer is marked.
    pub fn has_mark(&self, name: &Name) -> bool
        ensures { result ≡ has_mark name.now self.now.list.items }
    {
        self.list
            .iter()
            .any(|tile| tile.marked && tile.name.bytes() == name.bytes())
    }

    /// Hands a tile out.
    pub fn hand_out(&mut self, name: &Name, column: Column) -> Result<(), AllocError>
        ensures ok { OnOk result (self.new.list.items ≡ handed_out name.now column self.old.list.items) }
        ensures err { OnErr result (self.new.list.items ≡ self.old.list.items) }
    {
        let tile = HeldTile {
            name: name.clone()?,
            column,
            marked: false,
        };
        self.list.push(tile)?;
        Ok(())
    }

    /// Hands the tiles of a strip out: all of them or none.
    pub fn hand_out_strip(&mut self, name: &Name, strip: Strip) -> Result<(), AllocError>
        ensures ok { OnOk result (self.new.list.items ≡ strip_handed_out name.now strip self.old.list.items) }
        ensures err { OnErr result (self.new.list.items ≡ self.old.list.items) }
    {
        let before = self.list.len();
        for number in strip.first().number()..strip.last().number() + 1 {
            let Some(column) = Column::new(u64::from(number)) else {
                unreachable!()
            };
            if let Err(error) = self.hand_out(name, column) {
                self.list.truncate(before);
                return Err(error);
            }
        }
        Ok(())
    }

    /// Takes a tile in that was handed out.
    pub fn take_in(&mut self, name: &Name, column: Column)
        ensures { self.new.list.items ≡ taken_in name.now column self.old.list.items }
    {
        self.list
            .retain(|tile| tile.marked || !tile.is_of(name, column));
    }

    /// Marks a tile that was handed out.
    pub fn give_back(&mut self, name: &Name, column: Column)
        ensures { self.new.list.items ≡ given_back name.now column self.old.list.items }
    {
        for tile in self.list.iter_mut() {
            tile.mark(name, column);
        }
    }

    /// Marks the tiles of a layer that were handed out, from one column on and before another.
    pub fn give_back_strip(&mut self, name: &Name, first: u8, end: u8)
        ensures { self.new.list.items ≡ strip_given_back name.now first end self.old.list.items }
    {
        for tile in self.list.iter_mut() {
            tile.mark_within(name, first, end);
        }
    }

    /// Takes the tiles of a layer in that were handed out, from one column on and before another.
    pub fn take_in_strip(&mut self, name: &Name, first: u8, end: u8)
        ensures { self.new.list.items ≡ strip_taken_in name.now first end self.old.list.items }
    {
        self.list
            .retain(|tile| tile.marked || !tile.is_within(name, first, end));
    }

    /// Drops all marks.
    pub fn unmark(&mut self)
        ensures { self.new.list.items ≡ unmarked self.old.list.items }
    {
        self.list.retain(|tile| !tile.marked);
    }

    /// Drops the marks of a layer's tiles.
    pub fn unmark_of(&mut self, name: &Name)
        ensures { self.new.list.items ≡ unmarked_of name.now self.old.list.items }
    {
        self.list
            .retain(|tile| !(tile.marked && tile.name.bytes() == name.bytes()));
    }
}
