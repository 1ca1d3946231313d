//! What a journal means, said of places in the history of a stream. Each function does nothing: its
//! contract is the law, which holds of every history.

ghost use Rattle.std.specs.Prelude.{◌≡◌, ◌↔◌, ◌⊎◌, ℕ, ◌-◌, ◌*◌, ◌/◌, ◌%◌, ◌<◌, ◌≤◌, true, false, Some, List, [], slice_index};
ghost use Rattle.cc_model.specs.History.{Effect};
ghost use Rattle.cc_model.specs.Sizes.{Touch};
ghost use Rattle.cc_model.specs.Touches.{size_of, valid_of, unwritten, is_dirty};
ghost use Rattle.cc_model.specs.Bytes.{byte_of};
ghost use Rattle.cc_model.specs.Residency.{is_resident};
ghost use Rattle.cc_model.specs.Images.{image};
ghost use Rattle.cc_model.specs.Discards.{low_of, has_grown};
ghost use Rattle.cc_laws.specs.ByPlaces.{some_effect, touches_page, changes_byte, byte_given, discards_page, decides_byte, ends_well, LastPlace, SincePlace};
ghost use Rattle.cc_laws.specs.ByPlacesDirty.{ChangedByte, stamps_page, IsTouch, Has, is_newest_first};
ghost use Rattle.cc_laws.specs.ByPlacesResident.{comes_in, goes_away};
ghost use Rattle.cc_laws.specs.ByPlacesSizes.{size_set, sets_size, validates, invalidates};
ghost use Rattle.cc_laws.specs.ByPlacesGrown.{WasPast, GrownByte};
ghost use Rattle.cc_laws.specs.ByPlacesImage.{LastTransfer, ends_begun, image_left_by};

/// An effect touches a page exactly where it changes a byte of it or is a set-dirty whose hold has it.
pub fn touches_by_bytes()
    ensures { (e : Effect) (h : List Effect) (p : ℕ) →
        (touches_page p e h ≡ true) ↔ (ChangedByte p e h ⊎ (stamps_page p e h ≡ true)) }
{}

/// A page is dirty exactly where some touch of it is neither written nor cut, by a size step or a discard.
/// The touches that are left are exactly these, newest first.
pub fn dirty_by_places()
    ensures dirty { (h : List Effect) (p : ℕ) → (is_dirty h p ≡ true) ↔ ((t : Touch) × IsTouch h p t) }
    ensures touches { (h : List Effect) (p : ℕ) (t : Touch) → Has (unwritten h p) t ↔ IsTouch h p t }
    ensures order { (h : List Effect) (p : ℕ) → is_newest_first (unwritten h p) ≡ true }
{}

/// A byte below the valid data length is what the last effect gave that decides it: a change of it its own
/// byte, and a discard of its page while that was dirty the byte of the page's image, as far as that is
/// known. Where none decides it is the disk's opening byte, and from the valid data length on every byte is
/// zero.
pub fn bytes_by_places()
    ensures changed { (pages : ℕ → List ℕ) (h : List Effect) (i : ℕ) → i < valid_of h →
        (k : LastPlace (decides_byte i) h) → changes_byte i k.effect k.before ≡ true →
        byte_of pages h i ≡ byte_given i k.effect }
    ensures discarded { (pages : ℕ → List ℕ) (h : List Effect) (i : ℕ) → i < valid_of h →
        (k : LastPlace (decides_byte i) h) → discards_page (i / 4096) k.effect ≡ true →
        (bytes : List ℕ) → image pages k.before (i / 4096) ≡ Some bytes →
        byte_of pages h i ≡ slice_index bytes (i - 4096 * (i / 4096)) }
    ensures opening { (pages : ℕ → List ℕ) (h : List Effect) (i : ℕ) → i < valid_of h →
        some_effect (decides_byte i) h [] ≡ false → byte_of pages h i ≡ slice_index (pages (i / 4096)) (i % 4096) }
    ensures one_of_both { (h : List Effect) (i : ℕ) →
        LastPlace (decides_byte i) h ⊎ (some_effect (decides_byte i) h [] ≡ false) }
    ensures zero { (pages : ℕ → List ℕ) (h : List Effect) (i : ℕ) → valid_of h ≤ i → byte_of pages h i ≡ 0 }
{}

/// A page is resident exactly where it came in, by a page-in or a noncached store under a map, and since
/// then it did not go out, no size step and no discard took it away, and there was a map.
pub fn resident_by_places()
    ensures { (h : List Effect) (p : ℕ) → (is_resident h p ≡ true) ↔ SincePlace (comes_in p) (goes_away p) h }
{}

/// The image of a page is the page as its last ended transfer began, or unknown where that did not end
/// well, and the opening page where no transfer of it ended.
pub fn images_by_places()
    ensures transferred { (pages : ℕ → List ℕ) (h : List Effect) (p : ℕ) (k : LastTransfer h p) →
        image pages h p ≡ image_left_by pages p k.front (ends_well p k.its_end) }
    ensures opening { (pages : ℕ → List ℕ) (h : List Effect) (p : ℕ) →
        some_effect (ends_begun p) h [] ≡ false → image pages h p ≡ Some (pages p) }
    ensures one_of_both { (h : List Effect) (p : ℕ) →
        LastTransfer h p ⊎ (some_effect (ends_begun p) h [] ≡ false) }
{}

/// The size is what the last of the initialises that made the map and the size steps set, or 0 before
/// the first. A byte is below the valid data length exactly where a change ended past it, or an
/// initialise made the map so, and since then no map was made anew and no size step went to it or below.
pub fn sizes_by_places()
    ensures set { (h : List Effect) (k : LastPlace sets_size h) → Some (size_of h) ≡ size_set k.effect k.before }
    ensures opening { (h : List Effect) → some_effect sets_size h [] ≡ false → size_of h ≡ 0 }
    ensures one_of_both { (h : List Effect) → LastPlace sets_size h ⊎ (some_effect sets_size h [] ≡ false) }
    ensures valid { (h : List Effect) (i : ℕ) → (i < valid_of h) ↔ SincePlace (validates i) (invalidates i) h }
{}

/// A page has grown exactly where it has a byte that is valid now and was not at some place since the
/// stream was initialised and the last transfer of the page that ended well began. The least valid data
/// length that the page had is at or below a valid byte exactly where there is such a place.
pub fn grown_by_places()
    ensures grown { (h : List Effect) (p : ℕ) → (has_grown h p ≡ true) ↔ GrownByte h p }
    ensures low { (h : List Effect) (p i : ℕ) → i < valid_of h → (low_of h p ≤ i) ↔ WasPast h p i }
{}
