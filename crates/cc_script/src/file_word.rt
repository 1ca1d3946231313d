//! The word that names a file object of a stream.

ghost use Rattle.std.specs.Prelude.{◌≡◌, ◌<◌};
ghost use Rattle.cc_script.specs.Actions.{object_named, parsed_file};

use crate::part::place_of;
use crate::script::StreamLines;
use crate::word::number_between;
use cc_entry::FileId;

/// The greatest number of a stream's file object.
const MOST_OBJECT: u64 = 15;

fn object_named(streams: &StreamLines, name: &[u8], number: u8) -> Option<FileId>
    requires { number < 16 }
    ensures { result ≡ object_named streams.now name.now number }
{
    let stream = streams.find(name)?;
    FileId::new(stream.number(), number)
}

/// The name of a stream, which is its object 0, or the name, `:` and the number of an object.
#[tactic(auto, unfolding(crate::specs::Actions::parsed_file, crate::specs::Actions::file_at))]
pub(crate) fn file(streams: &StreamLines, word: &[u8]) -> Option<FileId>
    ensures { result ≡ parsed_file streams.now word.now }
{
    match place_of(word, b':') {
        Some(colon) => {
            let number = number_between(0, MOST_OBJECT, &word[colon + 1..])?;
            object_named(streams, &word[..colon], number as u8)
        }
        None => object_named(streams, word, 0),
    }
}
