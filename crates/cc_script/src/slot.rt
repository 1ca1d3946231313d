//! The words behind a verb, taken one after another in the form that the verb asks.

ghost use Rattle.std.specs.Prelude.{◌≡◌, ◌≤◌, ◌<◌, ◌^◌, IfSome};
ghost use Rattle.cc_script.specs.Outcome.{ReadsValue, TakesIf, TakesBound};
ghost use Rattle.cc_script.specs.Words.{parsed_number, number_between, name_of_word, parsed_bytes};
ghost use Rattle.cc_script.specs.Verbs.{verb_in};
ghost use Rattle.cc_script.specs.Actions.{next, flag, stream_named, parsed_file, parsed_span, parsed_optional_span, parsed_optional_number, parsed_quota, parsed_sizes};
ghost use Rattle.cc_script.specs.EventActions.{page_number, parsed_page};
ghost use Rattle.cc_script.specs.ShimActions.{parsed_path};
ghost use Rattle.cc_script.specs.HoldNames.{word_of};
ghost use Rattle.cc_script.specs.HoldActions.{parsed_stretch};
ghost use Rattle.cc_script.specs.Grammar.{parsed_log, parsed_stored};

use crate::byte_word::LONGEST;
use crate::fault::LineFault;
use crate::hold_word::{HoldNames, HoldWord};
use crate::name::Name;
use crate::part::Words;
use crate::script::{Mode, ReadPath, StreamLines};
use crate::stretch::Stretch;
use crate::verb::Verb;
use crate::{byte_word, file_word, path_word, word};
use cc_entry::{Bytes, FileId, FileSizes, Lsn, PageId, Quota, Span, StreamId};
use std::alloc::Global;

/// The greatest number of a log.
const MOST_HANDLE: u64 = 3;

/// The greatest number of a page, one less than 2^51.
const MOST_PAGE: u64 = 2251799813685247;

/// The greatest log sequence number.
const MOST_LSN: u64 = 4611686018427387904;

impl Words<'_> {
    pub(crate) fn number(&mut self) -> Option<u64>
        ensures { ReadsValue (next parsed_number self.old) result self.new }
    {
        word::number(self.next()?)
    }

    pub(crate) fn number_between(&mut self, low: u64, high: u64) -> Option<u64>
        ensures value { ReadsValue (next (number_between low high) self.old) result self.new }
        ensures in_range { IfSome result (λ n. (low ≤ n) × (n ≤ high)) }
    {
        word::number_between(low, high, self.next()?)
    }

    /// How many bytes are read.
    pub(crate) fn read_length(&mut self) -> Option<u64>
        ensures { ReadsValue (next (number_between 0 2097152) self.old) result self.new }
    {
        self.number_between(0, LONGEST)
    }

    /// The number at the end of a line, if one stands there.
    #[tactic(auto, unfolding(crate::specs::Actions::parsed_optional_number))]
    pub(crate) fn optional_number(&mut self) -> Option<Option<u64>>
        ensures { result ≡ parsed_optional_number self.old }
    {
        if self.is_empty() {
            return Some(None);
        }
        let number = self.number()?;
        if self.is_empty() {
            Some(Some(number))
        } else {
            None
        }
    }

    pub(crate) fn verb(&mut self, mode: Mode) -> Option<Verb>
        ensures { ReadsValue (next (verb_in mode) self.old) result self.new }
    {
        Verb::in_mode(mode, self.next()?)
    }

    /// Whether a given word stands next, which is taken then.
    pub(crate) fn flag(&mut self, given: &[u8]) -> bool
        ensures { flag given.now self.old ≡ (result, self.new) }
    {
        let Some((word, behind)) = self.split_first() else {
            return false;
        };
        if word != given {
            return false;
        }
        *self = behind;
        true
    }

    /// The quota of a stream, 16 view blocks where the words don't say it.
    #[tactic(auto, unfolding(crate::specs::Actions::parsed_quota))]
    pub(crate) fn quota(&mut self) -> Option<Quota>
        ensures { ReadsValue (parsed_quota self.old) result self.new }
    {
        if self.flag(b"quota") {
            let blocks = self.number_between(8, 64)?;
            Quota::new(blocks as u8)
        } else {
            Quota::new(16)
        }
    }

    /// The number of a log.
    pub(crate) fn handle(&mut self) -> Option<u8>
        ensures { ReadsValue (next (number_between 0 3) self.old) result self.new }
    {
        let handle = self.number_between(0, MOST_HANDLE)?;
        Some(handle as u8)
    }

    /// The log of a stream, none where the words don't say it.
    #[tactic(auto, unfolding(crate::specs::Grammar::parsed_log))]
    pub(crate) fn log(&mut self) -> Option<Option<u8>>
        ensures { ReadsValue (parsed_log self.old) result self.new }
    {
        if self.flag(b"log") {
            let handle = self.handle()?;
            Some(Some(handle))
        } else {
            Some(None)
        }
    }

    /// Whether a stream is opened with the sizes of its record, which only a run asks.
    #[tactic(auto, unfolding(crate::specs::Grammar::parsed_stored))]
    pub(crate) fn stored(&mut self, mode: Mode) -> bool
        ensures { parsed_stored mode self.old ≡ (result, self.new) }
    {
        match mode {
            Mode::Run => self.flag(b"stored"),
            Mode::Steps => false,
        }
    }

    pub(crate) fn lsn(&mut self) -> Option<Lsn>
        ensures { ReadsValue (next (number_between 1 4611686018427387904) self.old) result self.new }
    {
        let lsn = self.number_between(1, MOST_LSN)?;
        Lsn::new(lsn)
    }

    #[tactic(auto, unfolding(crate::specs::Actions::parsed_span))]
    pub(crate) fn span(&mut self) -> Option<Span>
        ensures { ReadsValue (parsed_span self.old) result self.new }
    {
        let from = self.number()?;
        let to = self.number()?;
        Span::new(from, to)
    }

    /// The range at the end of a line, none where the line is of a whole stream.
    #[tactic(auto, unfolding(crate::specs::Actions::parsed_optional_span))]
    pub(crate) fn optional_span(&mut self) -> Option<Option<Span>>
        ensures { result ≡ parsed_optional_span self.old }
    {
        if self.is_empty() {
            return Some(None);
        }
        let span = self.span()?;
        if self.is_empty() {
            Some(Some(span))
        } else {
            None
        }
    }

    /// The sizes of a file that is opened, any three numbers.
    #[tactic(auto, unfolding(crate::specs::Actions::parsed_sizes))]
    pub(crate) fn sizes(&mut self) -> Option<FileSizes>
        ensures { ReadsValue (parsed_sizes self.old) result self.new }
    {
        let allocation = self.number()?;
        let size = self.number()?;
        let valid = self.number()?;
        Some(FileSizes {
            allocation,
            size,
            valid,
        })
    }

    pub(crate) fn file(&mut self, streams: &StreamLines) -> Option<FileId>
        ensures { ReadsValue (next (parsed_file streams.now) self.old) result self.new }
    {
        file_word::file(streams, self.next()?)
    }

    pub(crate) fn stream(&mut self, streams: &StreamLines) -> Option<StreamId>
        ensures { ReadsValue (next (stream_named streams.now) self.old) result self.new }
    {
        streams.find(self.next()?)
    }

    /// The path of a read.
    pub(crate) fn path(&mut self) -> Option<ReadPath>
        ensures { ReadsValue (next parsed_path self.old) result self.new }
    {
        path_word::path(self.next()?)
    }

    /// The number of a page.
    pub(crate) fn page_number(&mut self) -> Option<u64>
        ensures value { ReadsValue (next page_number self.old) result self.new }
        ensures in_range { IfSome result (λ page. page < 2 ^ 51) }
    {
        self.number_between(0, MOST_PAGE)
    }

    /// A page of a stream.
    #[tactic(auto, unfolding(crate::specs::EventActions::parsed_page))]
    pub(crate) fn page(&mut self, streams: &StreamLines) -> Option<PageId>
        ensures { ReadsValue (parsed_page streams.now self.old) result self.new }
    {
        let stream = self.stream(streams)?;
        let page = self.page_number()?;
        PageId::new(stream, page)
    }

    /// A file, so many bytes of it from a place on, and a word that is bound to a hold on them.
    #[tactic(auto, unfolding(crate::specs::HoldActions::parsed_stretch))]
    pub(crate) fn stretch(
        &mut self,
        alloc: Global,
        streams: &StreamLines,
        names: &mut HoldNames,
    ) -> Result<Stretch, LineFault>
        ensures { TakesBound (parsed_stretch streams.now names.old self.old) result names.new self.new }
    {
        let file = self.file(streams).ok_or(LineFault::Syntax)?;
        let at = self.number().ok_or(LineFault::Syntax)?;
        let len = self.number().ok_or(LineFault::Syntax)?;
        let name = self.name(alloc)?;
        let word = names.bind(name)?;
        Ok(Stretch {
            file,
            at,
            len,
            word,
        })
    }

    /// A word that was bound.
    pub(crate) fn word(&mut self, names: &HoldNames) -> Option<HoldWord>
        ensures { ReadsValue (next (word_of names.now) self.old) result self.new }
    {
        names.find(self.next()?)
    }

    pub(crate) fn name(&mut self, alloc: Global) -> Result<Name, LineFault>
        ensures { TakesIf (next name_of_word self.old) result self.new }
    {
        let word = self.next().ok_or(LineFault::Syntax)?;
        Name::of(alloc, word)
    }

    pub(crate) fn bytes(&mut self, alloc: Global) -> Result<Bytes, LineFault>
        ensures { TakesIf (next parsed_bytes self.old) result self.new }
    {
        let word = self.next().ok_or(LineFault::Syntax)?;
        byte_word::bytes(alloc, word)
    }
}
