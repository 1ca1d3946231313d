//! The replies of a run, found by the line that they answer.

ghost use Rattle.std.specs.Prelude.{◌≡◌, ◌==◌, IfOk, option_copied};
ghost use Rattle.std.specs.List.{find};
ghost use Rattle.cc_print.specs.Replies.{IsReplyIndex};

use cc_entry::LineReply;
use std::alloc::{AllocError, Global};
use std::collections::BTreeMap;
use std::marker::Model;

/// The place of the first reply of each line, in one pass from the last reply on: a reply takes the
/// place of the later ones of its line.
fn first_places(alloc: Global, replies: &[LineReply]) -> Result<BTreeMap<u32, usize>, AllocError>
    ensures { IfOk result (λ places. IsReplyIndex replies.now places) }
{
    let mut places = BTreeMap::new(alloc);
    for i in (0..replies.len()).rev() {
        places.insert(replies[i].line, i)?;
    }
    Ok(places)
}

/// The replies of a run. The first one of a line is found in logarithmic time.
#[derive(Drop)]
pub(crate) struct Replies<'a> {
    items: &'a [LineReply],
    places: BTreeMap<u32, usize>,
}

impl<'a> Model for Replies<'a> {
    ghost use Rattle.std.specs.Prelude.{List};
    ghost use Rattle.cc_entry.specs.declared.answer.LineReply.{LineReply};
    ghost use Rattle.cc_print.specs.Replies.{IsReplyIndex};

    ghost Value = { List LineReply };

    ghost view = { λ r. r.items.now };

    ghost invariant = { λ r. IsReplyIndex r.items.now r.places };
}

impl<'a> Replies<'a> {
    pub(crate) fn new(alloc: Global, items: &'a [LineReply]) -> Result<Replies<'a>, AllocError>
        ensures { IfOk result (λ replies. replies ≡ items.now) }
    {
        let places = first_places(alloc, items)?;
        Ok(Replies { items, places })
    }

    /// The first reply of a line.
    pub(crate) fn of_line(&self, line: u32) -> Option<&LineReply>
        ensures { option_copied result ≡ find (λ reply. reply.line == line) self.now }
    {
        match self.places.get(&line) {
            Some(&place) => self.items.get(place),
            None => None,
        }
    }
}
