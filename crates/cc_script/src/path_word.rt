//! The word that names the path of a read.

ghost use Rattle.std.specs.Prelude.{◌≡◌};
ghost use Rattle.cc_script.specs.ShimActions.{path_text, parsed_path};

use crate::script::ReadPath;

pub(crate) const PATHS: [ReadPath; 5] = [
    ReadPath::Cached,
    ReadPath::Mapped,
    ReadPath::Pinned,
    ReadPath::Descriptor,
    ReadPath::Noncached,
];

fn text(path: ReadPath) -> &'static [u8]
    ensures { result.now ≡ path_text path }
{
    match path {
        ReadPath::Cached => b"cached",
        ReadPath::Mapped => b"mapped",
        ReadPath::Pinned => b"pinned",
        ReadPath::Descriptor => b"descriptor",
        ReadPath::Noncached => b"noncached",
    }
}

/// The path that a word names.
#[tactic(auto, unfolding(crate::specs::ShimActions::parsed_path))]
pub(crate) fn path(word: &[u8]) -> Option<ReadPath>
    ensures { result ≡ parsed_path word.now }
{
    PATHS.iter().copied().find(|p| text(*p) == word)
}
