//! The table of the verbs.

ghost use Rattle.std.specs.Prelude.{◌≡◌, not};
ghost use Rattle.cc_script.specs.Modes.{stands, verb_modes};
ghost use Rattle.cc_script.specs.QueryLines.{query_verb_text};
ghost use Rattle.cc_script.specs.Verbs.{verb_text, takes_caller, verb_of, verb_in};
ghost use Rattle.cc_script.specs.declared.script.Mode.TheVariants as mode;

use crate::script::Mode;

/// The first word of a line, after a caller word.
#[derive(Clone, Copy)]
pub(crate) enum Verb {
    Stream,
    Journal,
    Threshold,
    Workers,
    Restart,
    Phase,
    Initialise,
    Uninitialise,
    CopyRead,
    CopyWrite,
    Zero,
    Map,
    PinRead,
    PinMapped,
    PreparePin,
    HeldRead,
    PinnedWrite,
    SetDirty,
    Unpin,
    Repin,
    UnpinRepinned,
    MdlRead,
    MdlWrite,
    MdlBytes,
    MdlStore,
    MdlDone,
    MdlAbort,
    NcRead,
    NcWrite,
    SetSizes,
    Query(QueryVerb),
    Flush,
    Purge,
    Discard,
    Read,
    Write,
    Update,
    Lock,
    Unlock,
    Levels,
    Settle,
    Checkpoint,
    SetLog,
    Append,
    LogFlush,
    SetGranularity,
    SetAttributes,
    SetThreshold,
    NcStore,
    Fill,
    Drop,
    WriteBegin,
    WriteEnd,
    Sync,
    Scan,
    AskAhead,
    AheadStep,
    AsyncRead,
    Complete,
    Tick,
    Defer,
    Post,
    Fail,
}

/// The verb of a query.
#[derive(Clone, Copy)]
pub(crate) enum QueryVerb {
    State,
    DirtyPages,
    LsnForFile,
    IsDirtyData,
    CanWrite,
}

pub(crate) const VERBS: [Verb; 67] = [
    Verb::Stream,
    Verb::Journal,
    Verb::Threshold,
    Verb::Workers,
    Verb::Restart,
    Verb::Phase,
    Verb::Initialise,
    Verb::Uninitialise,
    Verb::CopyRead,
    Verb::CopyWrite,
    Verb::Zero,
    Verb::Map,
    Verb::PinRead,
    Verb::PinMapped,
    Verb::PreparePin,
    Verb::HeldRead,
    Verb::PinnedWrite,
    Verb::SetDirty,
    Verb::Unpin,
    Verb::Repin,
    Verb::UnpinRepinned,
    Verb::MdlRead,
    Verb::MdlWrite,
    Verb::MdlBytes,
    Verb::MdlStore,
    Verb::MdlDone,
    Verb::MdlAbort,
    Verb::NcRead,
    Verb::NcWrite,
    Verb::SetSizes,
    Verb::Query(QueryVerb::State),
    Verb::Flush,
    Verb::Purge,
    Verb::Discard,
    Verb::Read,
    Verb::Write,
    Verb::Update,
    Verb::Lock,
    Verb::Unlock,
    Verb::Levels,
    Verb::Settle,
    Verb::Checkpoint,
    Verb::Query(QueryVerb::IsDirtyData),
    Verb::Query(QueryVerb::DirtyPages),
    Verb::Query(QueryVerb::LsnForFile),
    Verb::SetLog,
    Verb::Append,
    Verb::LogFlush,
    Verb::SetGranularity,
    Verb::SetAttributes,
    Verb::SetThreshold,
    Verb::NcStore,
    Verb::Fill,
    Verb::Drop,
    Verb::WriteBegin,
    Verb::WriteEnd,
    Verb::Sync,
    Verb::Scan,
    Verb::AskAhead,
    Verb::AheadStep,
    Verb::AsyncRead,
    Verb::Complete,
    Verb::Tick,
    Verb::Query(QueryVerb::CanWrite),
    Verb::Defer,
    Verb::Post,
    Verb::Fail,
];

impl Verb {
    pub(crate) fn text(self) -> &'static [u8]
        ensures { result.now ≡ verb_text self }
    {
        match self {
            Verb::Stream => b"stream",
            Verb::Journal => b"journal",
            Verb::Threshold => b"threshold",
            Verb::Workers => b"workers",
            Verb::Restart => b"restart",
            Verb::Phase => b"phase",
            Verb::Initialise => b"init",
            Verb::Uninitialise => b"uninit",
            Verb::CopyRead => b"cread",
            Verb::CopyWrite => b"cwrite",
            Verb::Zero => b"zero",
            Verb::Map => b"map",
            Verb::PinRead => b"pin",
            Verb::PinMapped => b"pinmapped",
            Verb::PreparePin => b"prepare",
            Verb::HeldRead => b"hread",
            Verb::PinnedWrite => b"pwrite",
            Verb::SetDirty => b"stamp",
            Verb::Unpin => b"unpin",
            Verb::Repin => b"repin",
            Verb::UnpinRepinned => b"unrepin",
            Verb::MdlRead => b"mdlread",
            Verb::MdlWrite => b"mdlwrite",
            Verb::MdlBytes => b"mdlget",
            Verb::MdlStore => b"mdlput",
            Verb::MdlDone => b"mdldone",
            Verb::MdlAbort => b"mdlabort",
            Verb::NcRead => b"ncread",
            Verb::NcWrite => b"ncwrite",
            Verb::SetSizes => b"sizes",
            Verb::Query(verb) => verb.text(),
            Verb::Flush => b"flush",
            Verb::Purge => b"purge",
            Verb::Discard => b"discard",
            Verb::Read => b"read",
            Verb::Write => b"write",
            Verb::Update => b"update",
            Verb::Lock => b"lock",
            Verb::Unlock => b"unlock",
            Verb::Levels => b"levels",
            Verb::Settle => b"settle",
            Verb::Checkpoint => b"checkpoint",
            Verb::SetLog => b"setlog",
            Verb::Append => b"append",
            Verb::LogFlush => b"logflush",
            Verb::SetGranularity => b"granularity",
            Verb::SetAttributes => b"attributes",
            Verb::SetThreshold => b"fthreshold",
            Verb::NcStore => b"ncstore",
            Verb::Fill => b"fill",
            Verb::Drop => b"out",
            Verb::WriteBegin => b"begin",
            Verb::WriteEnd => b"end",
            Verb::Sync => b"sync",
            Verb::Scan => b"scan",
            Verb::AskAhead => b"ask",
            Verb::AheadStep => b"ahead",
            Verb::AsyncRead => b"aread",
            Verb::Complete => b"complete",
            Verb::Tick => b"tick",
            Verb::Defer => b"defer",
            Verb::Post => b"post",
            Verb::Fail => b"fail",
        }
    }

    /// The verb that a word is.
    #[tactic(auto, unfolding(crate::specs::Verbs::verb_of))]
    fn of(word: &[u8]) -> Option<Verb>
        ensures { result ≡ verb_of word.now }
    {
        VERBS.iter().copied().find(|v| v.text() == word)
    }

    // Whether it stands in steps alone.
    fn is_of_steps(self) -> bool
        ensures { result ≡ not (stands (verb_modes self) mode.Run) }
    {
        matches!(
            self,
            Verb::NcStore
                | Verb::Fill
                | Verb::Drop
                | Verb::WriteBegin
                | Verb::WriteEnd
                | Verb::Sync
                | Verb::Scan
                | Verb::Fail
        )
    }

    // Whether it stands in a run alone.
    fn is_of_run(self) -> bool
        ensures { result ≡ not (stands (verb_modes self) mode.Steps) }
    {
        matches!(
            self,
            Verb::Workers
                | Verb::Restart
                | Verb::Phase
                | Verb::Read
                | Verb::Write
                | Verb::Update
                | Verb::Lock
                | Verb::Unlock
                | Verb::Levels
                | Verb::Settle
                | Verb::Checkpoint
                | Verb::AskAhead
                | Verb::AheadStep
                | Verb::AsyncRead
                | Verb::Complete
                | Verb::Tick
        )
    }

    fn is_in_mode(self, mode: Mode) -> bool
        ensures { result ≡ stands (verb_modes self) mode }
    {
        match mode {
            Mode::Run => !self.is_of_steps(),
            Mode::Steps => !self.is_of_run(),
        }
    }

    /// Whether a caller word may stand before it.
    pub(crate) fn takes_caller(self) -> bool
        ensures { result ≡ takes_caller self }
    {
        !matches!(self, Verb::Drop | Verb::WriteEnd)
    }

    /// The verb that a word is in a mode.
    #[tactic(auto, unfolding(crate::specs::Verbs::verb_in))]
    pub(crate) fn in_mode(mode: Mode, word: &[u8]) -> Option<Verb>
        ensures { result ≡ verb_in mode word.now }
    {
        let verb = Verb::of(word)?;
        if verb.is_in_mode(mode) {
            Some(verb)
        } else {
            None
        }
    }
}

impl QueryVerb {
    fn text(self) -> &'static [u8]
        ensures { result.now ≡ query_verb_text self }
    {
        match self {
            QueryVerb::State => b"state",
            QueryVerb::DirtyPages => b"dirty",
            QueryVerb::LsnForFile => b"lsns",
            QueryVerb::IsDirtyData => b"isdirty",
            QueryVerb::CanWrite => b"canwrite",
        }
    }
}
