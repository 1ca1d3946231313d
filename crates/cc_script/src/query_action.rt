//! The lines of queries, each read from the words behind its verb.

ghost use Rattle.std.specs.Prelude.{◌≡◌};
ghost use Rattle.cc_entry.specs.declared.query.Query.TheVariants as query;
ghost use Rattle.cc_script.specs.Actions.{ended};
ghost use Rattle.cc_script.specs.QueryLines.{parsed_can_write, parsed_dirty_pages, parsed_lsn_for_file, parsed_query, parsed_state, query_in};

use crate::part::Words;
use crate::script::{Action, StreamLines};
use crate::verb::QueryVerb;
use cc_entry::Query;

#[tactic(auto, unfolding(crate::specs::QueryLines::parsed_state))]
fn state(streams: &StreamLines, words: &mut Words) -> Option<Query>
    ensures { result ≡ parsed_state streams.now words.old }
{
    let file = words.file(streams)?;
    if words.is_empty() {
        Some(Query::State { file })
    } else {
        None
    }
}

#[tactic(auto, unfolding(crate::specs::QueryLines::parsed_dirty_pages))]
fn dirty_pages(words: &mut Words) -> Option<Query>
    ensures { result ≡ parsed_dirty_pages words.old }
{
    let handle = words.handle()?;
    if words.is_empty() {
        Some(Query::DirtyPages { handle })
    } else {
        None
    }
}

#[tactic(auto, unfolding(crate::specs::QueryLines::parsed_lsn_for_file))]
fn lsn_for_file(streams: &StreamLines, words: &mut Words) -> Option<Query>
    ensures { result ≡ parsed_lsn_for_file streams.now words.old }
{
    let file = words.file(streams)?;
    if words.is_empty() {
        Some(Query::LsnForFile { file })
    } else {
        None
    }
}

fn is_dirty_data(words: &mut Words) -> Option<Query>
    ensures { result ≡ ended words.old query.IsDirtyData }
{
    if words.is_empty() {
        Some(Query::IsDirtyData)
    } else {
        None
    }
}

#[tactic(auto, unfolding(crate::specs::QueryLines::parsed_can_write))]
fn can_write(streams: &StreamLines, words: &mut Words) -> Option<Query>
    ensures { result ≡ parsed_can_write streams.now words.old }
{
    let file = words.file(streams)?;
    let bytes = words.number()?;
    if words.is_empty() {
        Some(Query::CanWrite { file, bytes })
    } else {
        None
    }
}

fn query_in(streams: &StreamLines, verb: QueryVerb, words: &mut Words) -> Option<Query>
    ensures { result ≡ query_in streams.now verb words.old }
{
    match verb {
        QueryVerb::State => state(streams, words),
        QueryVerb::DirtyPages => dirty_pages(words),
        QueryVerb::LsnForFile => lsn_for_file(streams, words),
        QueryVerb::IsDirtyData => is_dirty_data(words),
        QueryVerb::CanWrite => can_write(streams, words),
    }
}

/// The action that makes the query of a verb.
#[tactic(auto, unfolding(crate::specs::QueryLines::parsed_query))]
pub(crate) fn query(streams: &StreamLines, verb: QueryVerb, words: &mut Words) -> Option<Action>
    ensures { result ≡ parsed_query streams.now verb words.old }
{
    let query = query_in(streams, verb, words)?;
    Some(Action::Query(query))
}
