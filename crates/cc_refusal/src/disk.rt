//! Reasons for a refusal that lie in what the disk holds of dirty pages: those of a discard alone.

ghost use Rattle.std.specs.Prelude.{◌≡◌, List};
ghost use Rattle.std.specs.Option.{option_map};
ghost use Rattle.cc_model.specs.Discards.{unsettled, grown};
ghost use Rattle.cc_model.specs.History.{Effect};
ghost use Rattle.cc_images.specs.Dirty.{AreDirty};
ghost use Rattle.cc_images.specs.Images.{ImagesStand};

use crate::known::Known;
use cc_entry::{Call, CcError};
use cc_images::Images;

// A refusal by a page whose image is not known.
fn unsettled_at(page: Option<u64>) -> Option<CcError>
    ensures { result ≡ option_map (λ p. CcError.Unsettled p) page }
{
    match page {
        Some(page) => Some(CcError::Unsettled { page }),
        None => None,
    }
}

// A refusal by a page that has grown.
fn grown_at(page: Option<u64>) -> Option<CcError>
    ensures { result ≡ option_map (λ p. CcError.Grown p) page }
{
    match page {
        Some(page) => Some(CcError::Grown { page }),
        None => None,
    }
}

/// The refusal of a discard of a dirty page whose image is not known.
pub(crate) fn by_images(known: &Known, call: &Call) -> Option<CcError>
    ensures { (h : List Effect) → ImagesStand h known.now.images.now →
        AreDirty h known.now.stream known.now.dirty.now → result ≡ unsettled h call.now }
{
    match call {
        Call::Discard { span, .. } => {
            let page = known.images.first_unknown(known.dirty, known.stream, *span);
            unsettled_at(page)
        }
        _ => None,
    }
}

/// The refusal of a discard of a page that has grown.
pub(crate) fn by_growth(images: &Images, call: &Call) -> Option<CcError>
    ensures { (h : List Effect) → ImagesStand h images.now → result ≡ grown h call.now }
{
    match call {
        Call::Discard { span, .. } => grown_at(images.first_grown(*span)),
        _ => None,
    }
}
