use crate::name_maps::{find, insert, make_maps};
use board_base::OutOfMemory;
use std::alloc::Global;
use std::collections::BTreeMap;
use std::marker::Model;

/// The names of a source that have a value, in the order in which they were given it. Their values
/// are found in maps by name, which are made for the first.
#[derive(Drop)]
pub struct Names<'a> {
    entries: Vec<(&'a [u8], i32)>,
    maps: Vec<BTreeMap<&'a [u8], i32>>,
}

impl<'a> Model for Names<'a> {
    ghost use Rattle.std.specs.Prelude.{map};
    ghost use Rattle.asm_core.specs.Expressions.{NameValues};
    ghost use Rattle.asm_core.specs.NameMaps.{HasValues};

    ghost Value = { NameValues };

    ghost view = { λ names. map (λ entry. (entry.0.now, entry.1)) names.entries.items };

    ghost invariant = { λ names. HasValues names.maps.items (map (λ entry. (entry.0.now, entry.1)) names.entries.items) };
}

impl<'a> Names<'a> {
    ghost use Rattle.std.specs.Prelude.{◌≡◌, [], None, OnErr, OnOk};
    ghost use Rattle.asm_core.specs.Expressions.{value_of_name};
    ghost use Rattle.asm_core.specs.Passes.{with_name};

    /// No names, which take no memory yet.
    pub fn new(alloc: Global) -> Names<'a>
        ensures { result ≡ [] }
    {
        Names {
            entries: Vec::new(alloc),
            maps: Vec::new(alloc),
        }
    }

    /// The value of a name that has one.
    pub fn get(&self, name: &[u8]) -> Option<i32>
        ensures { result ≡ value_of_name self.now name.now }
    {
        find(&self.maps, name)
    }

    /// Gives a name its value. After a refusal the names are as before.
    pub fn define(&mut self, name: &'a [u8], value: i32) -> Result<(), OutOfMemory>
        requires { value_of_name self.old name.now ≡ None }
        ensures ok { OnOk result (self.new ≡ with_name self.old name.now value) }
        ensures err { OnErr result (self.new ≡ self.old) }
    {
        self.entries.reserve(1)?;
        make_maps(*self.entries.allocator(), &mut self.maps)?;
        insert(&mut self.maps, name, value)?;
        self.entries.push((name, value))?;
        Ok(())
    }
}
