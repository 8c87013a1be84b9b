//! The index of a map, by a table.

ghost use Rattle.std.specs.Prelude.{◌≡◌, ◌<◌, Contains};
ghost use Rattle.machines.specs.Prelude.{IsMap, IsHeld};
ghost use Rattle.plan_form.specs.Full.{IsFull};
ghost use Rattle.plan_form.specs.Labels.{IsAt};
ghost use Rattle.plan_form.specs.Keys.{key as key_of, content_key, IsIndex};

use crate::problem::Problem;
use ppc_isa::Map;

/// How many keys there are: 33 contents of each of three slots.
pub const KEYS: usize = 35937;

// The number of a slot's content.
fn content_of(content: Option<u8>) -> usize
    requires { IsHeld content }
    ensures number { result ≡ content_key content }
    ensures small { result < 33 }
{
    match content {
        None => 0,
        Some(gpr) => gpr as usize + 1,
    }
}

// The key of a map.
fn key(map: &Map) -> usize
    requires { IsMap map.now }
    ensures key { result ≡ key_of map.now }
    ensures small { result < 35937 }
{
    (content_of(map.ebx) * 33 + content_of(map.esi)) * 33 + content_of(map.edi)
}

/// The index of each map of a problem, by its key.
pub fn map_indexes(problem: &Problem) -> [u16; KEYS]
    requires { IsFull problem.now }
    ensures { IsIndex problem.now result }
{
    let mut table = [0u16; KEYS];
    for number in 0..problem.maps.len() {
        let at = key(&problem.maps[number]);
        table[at] = number as u16;
    }
    table
}

/// The index of a map of a problem, by the table of its maps.
pub fn index_in(problem: &Problem, table: &[u16], map: &Map) -> usize
    requires full { IsFull problem.now }
    requires table { IsIndex problem.now table.now }
    requires map { Contains problem.now.maps.items map.now }
    ensures { IsAt problem.now map.now result }
{
    table[key(map)] as usize
}
