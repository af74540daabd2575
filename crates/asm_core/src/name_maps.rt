ghost use Rattle.std.specs.Prelude.{◌≡◌, ◌≢◌, ℕ, ◌<◌, [], List, Some, IfOk, OnErr, OnOk, bytes_eq, length, if◌then◌else◌};
ghost use Rattle.std.specs.List.{All};
ghost use Rattle.asm_core.specs.NameMaps.{map_of, value_in};

use board_base::OutOfMemory;
use std::alloc::Global;
use std::collections::BTreeMap;

/// Over how many maps names are spread, so that each is small.
const MAPS: usize = 16_384;

/// The number of the map that may have a name. It spreads names over the maps; where a source is
/// written so that one map gets all its names, that map still finds each in few steps.
fn map_of(name: &[u8]) -> usize
    ensures value { result ≡ map_of name.now }
    ensures within { result < MAPS }
{
    let mut sum = 0;
    for byte in name {
        sum = (sum * 31 + usize::from(*byte)) % MAPS;
    }
    sum
}

/// All maps, without a name.
fn empty_maps<'a>(alloc: Global) -> Result<Vec<BTreeMap<&'a [u8], i32>>, OutOfMemory>
    ensures count { IfOk result (λ maps. length maps.items ≡ MAPS) }
    ensures empty { IfOk result (λ maps. All (λ map. map.entries ≡ []) maps.items) }
{
    let mut maps = Vec::with_capacity(alloc, MAPS)?;
    for _ in 0..MAPS {
        maps.push(BTreeMap::new(alloc))?;
    }
    Ok(maps)
}

/// Makes the maps where there is none yet. After a refusal there is still none.
pub(crate) fn make_maps(
    alloc: Global,
    maps: &mut Vec<BTreeMap<&[u8], i32>>,
) -> Result<(), OutOfMemory>
    requires { length maps.old.items ≢ 0 → length maps.old.items ≡ MAPS }
    ensures count { OnOk result (length maps.new.items ≡ MAPS) }
    ensures values { (name : List ℕ) → value_in maps.new.items name ≡ value_in maps.old.items name }
    ensures err { OnErr result (length maps.new.items ≡ 0) }
{
    if maps.is_empty() {
        *maps = empty_maps(alloc)?;
    }
    Ok(())
}

/// The value of a name that has one. Where there is no map yet, no name has.
pub(crate) fn find(maps: &[BTreeMap<&[u8], i32>], name: &[u8]) -> Option<i32>
    ensures { result ≡ value_in maps.now name.now }
{
    let map = maps.get(map_of(name))?;
    map.get(name).copied()
}

/// Gives a name its value in its map. After a refusal all names have the values that they had.
pub(crate) fn insert<'a>(
    maps: &mut Vec<BTreeMap<&'a [u8], i32>>,
    name: &'a [u8],
    value: i32,
) -> Result<(), OutOfMemory>
    requires { length maps.old.items ≡ MAPS }
    ensures count { length maps.new.items ≡ MAPS }
    ensures ok { OnOk result ((other : List ℕ) → value_in maps.new.items other ≡ (if bytes_eq name.now other then Some value else value_in maps.old.items other)) }
    ensures err { OnErr result ((other : List ℕ) → value_in maps.new.items other ≡ value_in maps.old.items other) }
{
    maps[map_of(name)].insert(name, value)?;
    Ok(())
}
