//! The names of the streams of a volume.

ghost use Rattle.std.specs.Prelude.{◌≡◌, ◌<◌, ◌≤◌, ◌↔◌, IsSome, IfSome, IsTrue, Some, List, ℕ, bytes_eq, length, map, slice_get, string_bytes};
ghost use Rattle.std.specs.List.{position};
ghost use Rattle.cc_shim.specs.Names.{StreamIsNamed, are_apart};

use cc_entry::FileId;
use std::marker::Model;

/// The most streams of a volume: as many as there are stream numbers.
const MOST: usize = 16;

/// The names of the streams of a volume, 16 at most, no two equal: the k-th name is that of stream k. In Windows it is the
/// part of a file system that finds a file by its name.
#[derive(Drop)]
pub struct Volume {
    names: Vec<String>,
}

impl Model for Volume {
    ghost use Rattle.std.specs.Prelude.{◌≤◌, List, ℕ, length, map, string_bytes};

    ghost Value = { List (List ℕ) };

    ghost view = { λ v. map string_bytes v.names.items };

    ghost invariant = { λ v. length v.names.items ≤ 16 };
}

impl Volume {
    /// The volume whose stream k has the k-th name; `None` where there are more than 16 names, or two are equal.
    pub fn new(names: Vec<String>) -> Option<Volume>
        ensures refused { IsSome result ↔ ((length names.items ≤ 16) × are_apart (map string_bytes names.items)) }
        ensures names { IfSome result (λ volume. volume ≡ map string_bytes names.items) }
    {
        if names.len() <= MOST && all_differ(&names) {
            Some(Volume { names })
        } else {
            None
        }
    }

    /// How many streams it has.
    pub(crate) fn len(&self) -> u8
        ensures count { result ≡ length self.now }
        ensures most { result ≤ 16 }
    {
        self.names.len() as u8
    }

    /// The file object of this number of the stream that has the name; `None` where no stream has it, or where the number
    /// is above 15.
    pub fn open_name(&self, name: &str, object: u8) -> Option<FileId>
        ensures found { IsSome result ↔ (StreamIsNamed self.now name.now × (object < 16)) }
        ensures stream { IfSome result (λ file. slice_get self.now file.stream ≡ Some name.now) }
        ensures object { IfSome result (λ file. file.object ≡ object) }
    {
        let stream = place_of(&self.names, name)?;
        FileId::new(stream as u8, object)
    }
}

// Whether no two of the names are equal.
fn all_differ(names: &[String]) -> bool
    ensures { IsTrue result ↔ are_apart (map string_bytes names.now) }
{
    match names {
        [] => true,
        [first, rest @ ..] => match place_of(rest, first.as_str()) {
            Some(_) => false,
            None => all_differ(rest),
        },
    }
}

// The first place of a name.
fn place_of(names: &[String], name: &str) -> Option<usize>
    ensures { result ≡ position (λ other. bytes_eq (string_bytes other) name.now) names.now }
{
    names.iter().position(|other| other.as_str() == name)
}
