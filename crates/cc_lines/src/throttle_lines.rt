//! The lines of the throttle that leave no entry of a call: a deferral, and posts.

ghost use Rattle.std.specs.Prelude.{◌≡◌, false};
ghost use Rattle.cc_pieces.specs.Answered.{DeferAnswered, PostsAnswered};
ghost use Rattle.cc_turns.specs.Standing.{Standing};
ghost use Rattle.cc_calls.specs.Answers.{CanCall, IsFree};
ghost use Rattle.cc_calls.specs.Pages.{StaysGood, WentOn};
ghost use Rattle.cc_lines.specs.Line.{IsFullTold};

use cc_calls::{defer, post_next};
use cc_entry::{Answer, CcError, FileId, Ids};
use cc_traits::PostRoutine;
use cc_turns::Turns;
use std::alloc::Global;

/// A post routine that a line makes for the write that it defers.
pub trait Fresh: PostRoutine {
    /// One that was not posted.
    fn fresh() -> Self
        ensures { Self.posted result ≡ false };
}

/// A deferral of a write of so many bytes, whose routine is made here.
pub(crate) fn defer_write<T: Turns>(
    turns: &mut T,
    file: FileId,
    bytes: u64,
    retrying: bool,
) -> Answer
where
    T::Post: Fresh,
    requires { CanCall (T.standing turns.old) file.stream }
    ensures answered { DeferAnswered (T.standing turns.old).number file bytes retrying result
        (T.standing turns.old).seen (T.standing turns.new).seen }
    ensures full { IsFullTold (T.standing turns.new) result }
    ensures goes_on { WentOn (T.standing turns.old) (T.standing turns.new) }
    ensures good { StaysGood (T.standing turns.old) (T.standing turns.new) }
{
    match defer(turns, file, bytes, retrying, T::Post::fresh()) {
        Ok(id) => Answer::Deferred(id),
        Err((_, error)) => Answer::Refused(error),
    }
}

/// Posts the first deferred write again and again, until there is nothing to post, or one post is refused: then the refusal
/// alone is told. The memory for a number is taken before its post.
pub(crate) fn post_all<T: Turns>(alloc: Global, turns: &mut T) -> Answer
    requires { IsFree (T.standing turns.old) }
    ensures answered { PostsAnswered (T.standing turns.old).setup (T.standing turns.old).number result
        (T.standing turns.old).seen (T.standing turns.new).seen }
    ensures full { IsFullTold (T.standing turns.new) result }
    ensures goes_on { WentOn (T.standing turns.old) (T.standing turns.new) }
    ensures good { StaysGood (T.standing turns.old) (T.standing turns.new) }
{
    let mut ids = Vec::new(alloc);
    for _ in 0..u64::MAX {
        if ids.reserve(1).is_err() {
            return Answer::Refused(CcError::NoMemory);
        }
        match post_next(turns) {
            Ok(Some(posted)) => ids.push_reserved(posted.id),
            Ok(None) => return Answer::Posts(Ids::from_vec(ids)),
            Err(error) => return Answer::Refused(error),
        }
    }
    // No memory holds so many numbers.
    Answer::Refused(CcError::NoMemory)
}
