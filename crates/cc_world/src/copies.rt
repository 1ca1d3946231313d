//! Copies of what a call answers.

ghost use Rattle.std.specs.Prelude.{◌≡◌, IfOk};

use cc_entry::{Bytes, NoMemory, Reply, Rows};
use std::alloc::Global;

/// A copy of a reply.
pub(crate) fn copy_of(alloc: Global, reply: &Reply) -> Result<Reply, NoMemory>
    ensures { IfOk result (λ copy. copy ≡ reply.now) }
{
    match reply {
        Reply::Unit => Ok(Reply::Unit),
        Reply::Read(bytes) => Ok(Reply::Read(Bytes::of(alloc, &bytes.to_vec(alloc)?)?)),
        Reply::Hold(id) => Ok(Reply::Hold(*id)),
        Reply::Value(value) => Ok(Reply::Value(*value)),
        Reply::Rows(rows) => Ok(Reply::Rows(Rows::from_vec(rows.as_slice().to_vec(alloc)?))),
        Reply::Ahead(request) => Ok(Reply::Ahead(*request)),
        Reply::Whole(whole) => Ok(Reply::Whole(*whole)),
    }
}
