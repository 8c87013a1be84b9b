// A list of the names at which a call has failed.
ghost use Rattle.std.specs.Prelude.{◌≡◌, ◌<◌, IfOk, OnOk, vec_len, string_bytes};
ghost use Rattle.std.specs.Vec.{vec_capacity};
ghost use Rattle.outside.specs.Faults.{Enters};

use std::alloc::Global;
use word_kit::NoMemory;

/// Takes the memory for one more name, before the call acts.
pub fn prepare(alloc: Global, names: &mut Vec<String>, name: &str) -> Result<String, NoMemory>
    ensures key { IfOk result (λ key. string_bytes key ≡ name.now) }
    ensures room { OnOk result (vec_len names.new < vec_capacity names.new) }
    ensures same { names.new.items ≡ names.old.items }
{
    let key = match String::from_str(alloc, name) {
        Ok(key) => key,
        Err(_) => return Err(NoMemory),
    };
    match names.try_reserve(1) {
        Ok(()) => Ok(key),
        Err(_) => Err(NoMemory),
    }
}

/// Adds a name, for which there is room.
pub fn enter(names: &mut Vec<String>, key: String)
    requires { vec_len names.old < vec_capacity names.old }
    ensures { Enters (string_bytes key) names.old.items names.new.items }
{
    names.push(key).unwrap()
}
