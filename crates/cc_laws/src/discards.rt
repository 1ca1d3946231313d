//! What the disk is known to hold, and what a discard makes of a stream. Each function does nothing: its
//! contract is the law.

ghost use Rattle.std.specs.Prelude.{◌≡◌, ◌↔◌, ℕ, ◌+◌, ◌-◌, ◌*◌, ◌<◌, ◌≤◌, Some, None, is_some, true, false, not, List, ◌∷◌, slice_index, Option};
ghost use Rattle.cc_entry.specs.Place.{File, Range};
ghost use Rattle.cc_entry.specs.declared.call.Call.{Call};
ghost use Rattle.cc_entry.specs.declared.call.Call.TheVariants as call;
ghost use Rattle.cc_entry.specs.declared.error.CcError.TheVariants as error;
ghost use Rattle.cc_entry.specs.declared.reply.Reply.{Reply};
ghost use Rattle.cc_model.specs.History.{Effect, Did};
ghost use Rattle.cc_model.specs.Acts.{act_of, Discards};
ghost use Rattle.cc_model.specs.Ranges.{span_has};
ghost use Rattle.cc_model.specs.Touches.{sizes, valid_of, unwritten, is_dirty, is_mapped};
ghost use Rattle.cc_model.specs.Bytes.{on_disk, byte_of};
ghost use Rattle.cc_model.specs.Residency.{is_resident};
ghost use Rattle.cc_model.specs.Images.{image};
ghost use Rattle.cc_model.specs.Discards.{is_known, has_grown, unsettled, grown};
ghost use Rattle.cc_laws.specs.LeastPages.{IsLeastDirty};

/// Where the image of a page is known, the byte that the disk holds is the image's.
pub fn on_disk_is_the_image()
    ensures { (pages : ℕ → List ℕ) (h : List Effect) (p i : ℕ) (bytes : List ℕ) →
        4096 * p ≤ i → i < 4096 * p + 4096 → image pages h p ≡ Some bytes →
        on_disk pages false h i ≡ slice_index bytes (i - 4096 * p) }
{}

/// Whether the image of a page is known hangs on no opening page of the disk.
pub fn images_are_known_over_every_disk()
    ensures { (pages : ℕ → List ℕ) (h : List Effect) (p : ℕ) → is_some (image pages h p) ≡ is_known h p }
{}

/// After a discard no page of its span is dirty or resident, and every other page is as it was: its
/// touches, its bytes and, while the stream has a map, whether it is resident. The sizes stay.
pub fn discards_drop_their_pages()
    ensures clean { (pass : ℕ) (call : Call) (reply : Reply) (h : List Effect) (span : Option Range) (p : ℕ) →
        act_of call ≡ Discards span → span_has span p ≡ true → is_dirty (Did pass call reply ∷ h) p ≡ false }
    ensures absent { (pass : ℕ) (call : Call) (reply : Reply) (h : List Effect) (span : Option Range) (p : ℕ) →
        act_of call ≡ Discards span → span_has span p ≡ true → is_resident (Did pass call reply ∷ h) p ≡ false }
    ensures other_touches { (pass : ℕ) (call : Call) (reply : Reply) (h : List Effect) (span : Option Range) (p : ℕ) →
        act_of call ≡ Discards span → span_has span p ≡ false →
        unwritten (Did pass call reply ∷ h) p ≡ unwritten h p }
    ensures other_residents { (pass : ℕ) (call : Call) (reply : Reply) (h : List Effect) (span : Option Range) (p : ℕ) →
        act_of call ≡ Discards span → span_has span p ≡ false → is_mapped (Did pass call reply ∷ h) ≡ true →
        is_resident (Did pass call reply ∷ h) p ≡ is_resident h p }
    ensures other_bytes { (pages : ℕ → List ℕ) (pass : ℕ) (call : Call) (reply : Reply) (h : List Effect)
        (span : Option Range) (p i : ℕ) → act_of call ≡ Discards span → span_has span p ≡ false →
        4096 * p ≤ i → i < 4096 * p + 4096 → byte_of pages (Did pass call reply ∷ h) i ≡ byte_of pages h i }
    ensures sizes { (pass : ℕ) (call : Call) (reply : Reply) (h : List Effect) (span : Option Range) →
        act_of call ≡ Discards span → sizes (Did pass call reply ∷ h) ≡ sizes h }
{}

/// After a discard each valid byte of a page of its span that was dirty is the byte of the page's image,
/// and each byte of a page that was clean is as it was.
pub fn discards_give_the_image()
    ensures dirty { (pages : ℕ → List ℕ) (pass : ℕ) (call : Call) (reply : Reply) (h : List Effect)
        (span : Option Range) (p i : ℕ) (bytes : List ℕ) → act_of call ≡ Discards span →
        span_has span p ≡ true → is_dirty h p ≡ true → image pages h p ≡ Some bytes →
        4096 * p ≤ i → i < 4096 * p + 4096 → i < valid_of h →
        byte_of pages (Did pass call reply ∷ h) i ≡ slice_index bytes (i - 4096 * p) }
    ensures clean { (pages : ℕ → List ℕ) (pass : ℕ) (call : Call) (reply : Reply) (h : List Effect)
        (span : Option Range) (p i : ℕ) → act_of call ≡ Discards span → is_dirty h p ≡ false →
        4096 * p ≤ i → i < 4096 * p + 4096 → byte_of pages (Did pass call reply ∷ h) i ≡ byte_of pages h i }
{}

/// The two reasons that a discard alone meets name the least dirty page of its span whose image is not known,
/// and the least that has grown, and neither holds where there is no such page.
pub fn discards_are_refused_for_the_least_page()
    ensures unsettled { (h : List Effect) (file : File) (span : Option Range) (p : ℕ) →
        (unsettled h (call.Discard file span) ≡ Some (error.Unsettled p))
        ↔ IsLeastDirty h span (λ q. not (is_known h q)) p }
    ensures settled { (h : List Effect) (file : File) (span : Option Range) →
        (unsettled h (call.Discard file span) ≡ None)
        ↔ ((p : ℕ) → is_dirty h p ≡ true → span_has span p ≡ true → is_known h p ≡ true) }
    ensures grown { (h : List Effect) (file : File) (span : Option Range) (p : ℕ) →
        (grown h (call.Discard file span) ≡ Some (error.Grown p)) ↔ IsLeastDirty h span (has_grown h) p }
    ensures not_grown { (h : List Effect) (file : File) (span : Option Range) →
        (grown h (call.Discard file span) ≡ None)
        ↔ ((p : ℕ) → is_dirty h p ≡ true → span_has span p ≡ true → has_grown h p ≡ false) }
{}
