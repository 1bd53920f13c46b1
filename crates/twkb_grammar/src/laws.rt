//! Laws of blobs, each stated as the contract of an empty function, for any limits that `Limits`
//! can hold. All that a clause calls valid, a blob, a stream, a part or a fault is so under the
//! same limits.
ghost use Rattle.std.specs.Prelude.{◌≡◌, ◌≢◌, ◌↔◌, ◌⊎◌, ◌<◌, ◌≤◌, ◌+◌, ◌*◌, ℕ, List, [], ◌++◌, length, map, Some};
ghost use Rattle.std.specs.List.{AllByRecursion};
ghost use Rattle.twkb_tree.specs.Tree.{Tree, IsTree, nodes, flat};
ghost use Rattle.twkb_tree.specs.Limits.{Allowance, IsAllowance, IsValid};
ghost use Rattle.twkb_grammar.specs.declared.style.Style.{Style};
ghost use Rattle.twkb_grammar.specs.Bits.{AreBytes};
ghost use Rattle.twkb_grammar.specs.Roles.{Item, Role, HasBytes};
ghost use Rattle.twkb_grammar.specs.Items.{Items, Blob, BlobInFront, Stream};
ghost use Rattle.twkb_grammar.specs.Written.{canonical_blob, canonical_stream};
ghost use Rattle.twkb_grammar.specs.Fault.{Fault, FirstFault, StreamFault, Reason, Truncated};
ghost use Rattle.twkb_grammar.specs.Fault.{BadVarint, Part, IsPart, IsCut, IsTooLong};
ghost use Rattle.twkb_grammar.specs.Machine.{Runs, Sums, nothing, started, Finished, Stack, role_at, sums_after};
ghost use Rattle.twkb_grammar.specs.Reading.{decode, objection, Made, RefusedAt, GoesOn, Ran, Reached, IsGiven};
ghost use Rattle.twkb_grammar.specs.Reading.{AtNumber, RefusalsAre, Leads, Stands, IsSamePlace, frame_count};
ghost use Rattle.twkb_grammar.specs.Reading.{open_after};
ghost use Rattle.twkb_grammar.specs.Noting.{spans_of_blob, moved_span, geometries, CoversBlob, no_notes, noted};
ghost use Rattle.twkb_grammar.specs.Noting.{NotesGoOn, NotesEnd};

/// In either style, the canonical blob of a valid geometry is a blob of it, with at most 100 bytes
/// for each node and 20 for each point. The canonical stream of valid geometries is a stream of
/// them.
pub fn written_is_blob()
    ensures blob { (limits : Allowance) (style : Style) (g : Tree) → IsAllowance limits
        → IsValid limits g → Blob limits (canonical_blob style g) g }
    ensures short { (limits : Allowance) (style : Style) (g : Tree) → IsAllowance limits
        → IsValid limits g → length (canonical_blob style g) ≤ 100 * nodes g + 20
        * length (flat g) }
    ensures stream { (limits : Allowance) (style : Style) (gs : List Tree) → IsAllowance limits
        → AllByRecursion (λ g. IsValid limits g) gs → Stream limits (canonical_stream style gs) gs }
{}

/// Bytes are a blob of at most one geometry, and no blob is a proper prefix of another: two blobs
/// at the start of the same bytes are equal, and so are their geometries.
pub fn one_blob()
    ensures { (limits : Allowance) (a b x y : List ℕ) (g h : Tree) → Blob limits a g
        → Blob limits b h → a ++ x ≡ b ++ y → (g ≡ h) × (a ≡ b) }
{}

/// A blob has at least one byte.
pub fn some_byte()
    ensures { (limits : Allowance) (bytes : List ℕ) (g : Tree) → Blob limits bytes g → 1 ≤ length bytes }
{}

/// Bytes are a stream of at most one list of geometries. If a stream begins with another, its list
/// begins with that of the other, and the bytes after the other are a stream of the remaining
/// geometries. Two streams joined are a stream of the geometries of both, in order.
pub fn one_stream()
    ensures one_reading { (limits : Allowance) (bytes : List ℕ) (gs hs : List Tree)
        → Stream limits bytes gs → Stream limits bytes hs → gs ≡ hs }
    ensures one_cut { (limits : Allowance) (bytes rest : List ℕ) (gs hs : List Tree)
        → Stream limits bytes gs → Stream limits (bytes ++ rest) hs → (ks : List Tree)
        × (hs ≡ gs ++ ks) × Stream limits rest ks }
    ensures joined { (limits : Allowance) (a b : List ℕ) (gs hs : List Tree) → Stream limits a gs
        → Stream limits b hs → Stream limits (a ++ b) (gs ++ hs) }
{}

/// Bytes that begin with a blob have no fault. If a stream is followed by bytes with a fault, both
/// together are no stream.
pub fn blob_or_fault()
    ensures no_blob { (limits : Allowance) (bytes rest : List ℕ) (g : Tree) (offset : ℕ)
        (reason : Reason) → BlobInFront limits bytes g rest → Fault limits bytes offset reason → ⊥ }
    ensures no_stream { (limits : Allowance) (bytes rest : List ℕ) (gs hs : List Tree) (offset : ℕ)
        (reason : Reason) → Stream limits bytes gs → Fault limits rest offset reason
        → Stream limits (bytes ++ rest) hs → ⊥ }
{}

/// Bytes have at most one first fault, with one offset and one reason. If blobs come before the
/// fault, it and their geometries are determined too. If a stream is put before such bytes, they
/// keep the fault: its offset grows by the length of the stream, and the geometries of the stream
/// come first.
pub fn one_fault()
    ensures blob { (limits : Allowance) (bytes : List ℕ) (o p : ℕ) (r s : Reason)
        → FirstFault limits bytes o r → FirstFault limits bytes p s → (o ≡ p) × (r ≡ s) }
    ensures stream { (limits : Allowance) (bytes : List ℕ) (gs hs : List Tree) (o p : ℕ)
        (r s : Reason) → StreamFault limits bytes gs o r → StreamFault limits bytes hs p s
        → (gs ≡ hs) × (o ≡ p) × (r ≡ s) }
    ensures joined { (limits : Allowance) (a b : List ℕ) (gs hs : List Tree) (offset : ℕ)
        (reason : Reason) → Stream limits a gs → StreamFault limits b hs offset reason
        → StreamFault limits (a ++ b) (gs ++ hs) (length a + offset) reason }
{}

/// Any bytes are a stream, or blobs followed by a first fault.
pub fn stream_or_fault()
    ensures { (limits : Allowance) (bytes : List ℕ) → IsAllowance limits → AreBytes bytes
        → ((gs : List Tree) × Stream limits bytes gs)
        ⊎ ((gs : List Tree) × (offset : ℕ) × (reason : Reason)
        × StreamFault limits bytes gs offset reason) }
{}

/// If there is at least one byte, the plain reader `decode` always answers: it makes a geometry
/// exactly if a blob of it is at the start of the bytes, and refuses the bytes exactly at their
/// first fault.
pub fn plain_reader()
    ensures made { (limits : Allowance) (bytes rest : List ℕ) (g : Tree) → IsAllowance limits
        → AreBytes bytes → bytes ≢ [] → decode limits bytes ≡ Made g rest
        ↔ BlobInFront limits bytes g rest }
    ensures refused { (limits : Allowance) (bytes : List ℕ) (offset : ℕ) (reason : Reason)
        → IsAllowance limits → AreBytes bytes → bytes ≢ []
        → decode limits bytes ≡ RefusedAt offset reason ↔ FirstFault limits bytes offset reason }
    ensures answers { (limits : Allowance) (bytes : List ℕ) → IsAllowance limits → AreBytes bytes
        → bytes ≢ [] → decode limits bytes ≢ GoesOn }
{}

/// The item machine runs through some items to a finished geometry exactly if they are the items of
/// that geometry.
pub fn machine()
    ensures { (g : Tree) (is : List Item) → (IsTree g × Items 0 g is) ↔ Runs nothing started is ([], Finished g) }
{}

/// The item machine runs through some items exactly if the items of some geometry begin with them.
pub fn fronts()
    ensures { (before : List Item) → ((st : Stack) × Runs nothing started before st)
        ↔ ((g : Tree) × (more : List Item) × IsTree g × Items 0 g (before ++ more)) }
{}

/// From each state that the item machine reaches, some further items lead it to a finished
/// geometry.
pub fn completions()
    ensures { (before : List Item) (st : Stack) → Runs nothing started before st
        → (more : List Item) × (g : Tree) × Runs (sums_after nothing before) st more
        ([], Finished g) }
{}

/// A part is a prefix of a valid geometry's items in which each size that can be checked is exact.
/// The machine runs through some items, within the limits and with exact sizes, exactly if they are
/// a part. The bytes of the items that a reader has taken are those of a part, and so are the bytes
/// of a blob. Bytes that begin with a part have no fault inside that part.
pub fn parts()
    ensures items { (limits : Allowance) (before : List Item) → Part limits before
        ↔ ((st : Stack) × Ran limits before st) }
    ensures reached { (limits : Allowance) (bytes : List ℕ) (e : Sums) (st : Stack)
        → Reached limits bytes e st → IsPart limits bytes }
    ensures blob { (limits : Allowance) (bytes : List ℕ) (g : Tree) → Blob limits bytes g → IsPart limits bytes }
    ensures behind { (limits : Allowance) (bytes more : List ℕ) (offset : ℕ) (reason : Reason)
        → IsPart limits bytes → Fault limits (bytes ++ more) offset reason → length bytes ≤ offset }
{}

/// If the machine expects an item, and a reason is the first that applies to the bytes left, that
/// place and reason are a fault. They are the first fault if the items so far keep the limits and
/// have exact sizes.
pub fn refusals()
    ensures fault { (limits : Allowance) (before : List Item) (st : Stack)
        → Runs nothing started before st → RefusalsAre (Fault limits) limits before st }
    ensures first { (limits : Allowance) (before : List Item) (st : Stack) → Ran limits before st
        → RefusalsAre (FirstFault limits) limits before st }
{}

/// A reader that takes items one by one starts with no bytes. Then and after each item its count of
/// bytes is exact, at most as many collections are open as the limits allow, and there is one frame
/// for each open geometry, at most one more than that limit. An item that it expects leads it to
/// its next state, past any ends that come with the item, or to the first fault: at the item if
/// there is an objection to its number, after the item if a size is wrong. Once a geometry is
/// finished, the bytes are a blob of it. If a number is expected and the bytes end inside it, or it
/// is too long, the first fault is there. If an item with bytes is expected and none are left, the
/// first fault is there, unless no byte came at all.
pub fn reading()
    ensures starts { (limits : Allowance) → IsAllowance limits → Reached limits [] nothing started }
    ensures offset { (limits : Allowance) (bytes : List ℕ) (e : Sums) (st : Stack)
        → Reached limits bytes e st → length bytes ≡ e.bytes }
    ensures depth { (limits : Allowance) (bytes : List ℕ) (e : Sums) (st : Stack)
        → Reached limits bytes e st → length st.0 ≤ limits.nest }
    ensures frames { (limits : Allowance) (bytes : List ℕ) (e : Sums) (st : Stack)
        (r : Reached limits bytes e st) → frame_count st ≡ open_after 0 r.items }
    ensures few_frames { (limits : Allowance) (bytes : List ℕ) (e : Sums) (st : Stack)
        → Reached limits bytes e st → frame_count st ≤ limits.nest + 1 }
    ensures leads { (limits : Allowance) (bytes : List ℕ) (e : Sums) (st : Stack) (i : Item)
        → Reached limits bytes e st → role_at e st ≡ Some i.role → IsGiven i
        → Leads limits bytes e st i (objection limits e i.role i.number) }
    ensures blob { (limits : Allowance) (bytes : List ℕ) (e : Sums) (g : Tree)
        → Reached limits bytes e ([], Finished g) → Blob limits bytes g }
    ensures cut { (limits : Allowance) (bytes : List ℕ) (e : Sums) (st : Stack)
        → AtNumber (Reached limits bytes e st) (role_at e st)
        (λ rest. IsCut rest → FirstFault limits (bytes ++ rest) e.bytes Truncated) }
    ensures long { (limits : Allowance) (bytes : List ℕ) (e : Sums) (st : Stack)
        → AtNumber (Reached limits bytes e st) (role_at e st) (λ rest. IsTooLong rest
        → FirstFault limits (bytes ++ rest) e.bytes BadVarint) }
    ensures missing { (limits : Allowance) (bytes : List ℕ) (e : Sums) (st : Stack) (role : Role)
        → Reached limits bytes e st → role_at e st ≡ Some role
        → bytes ≢ [] → HasBytes role → FirstFault limits bytes e.bytes Truncated }
{}

/// The bytes that a reader of a stream has taken determine the geometries so far and its state. It
/// is inside no blob exactly if the bytes are a stream; inside a blob, the first fault is that they
/// are truncated after the last complete item.
pub fn standing()
    ensures starts { (limits : Allowance) (bytes : List ℕ) (gs : List Tree) → IsAllowance limits
        → Stream limits bytes gs → Stands limits bytes gs nothing started [] }
    ensures one_place { (limits : Allowance) (bytes : List ℕ) (gs hs : List Tree) (e f : Sums)
        (st su : Stack) (held kept : List ℕ) → Stands limits bytes gs e st held
        → Stands limits bytes hs f su kept → IsSamePlace gs hs e f st su held kept }
    ensures whole { (limits : Allowance) (bytes : List ℕ) (gs : List Tree) (e : Sums) (st : Stack)
        (held : List ℕ) → Stands limits bytes gs e st held → e.bytes ≡ 0 → Stream limits bytes gs }
    ensures cut { (limits : Allowance) (bytes : List ℕ) (gs : List Tree) (e : Sums) (st : Stack)
        (held : List ℕ) (s : Stands limits bytes gs e st held) → 0 < e.bytes
        → StreamFault limits bytes gs (length s.front + e.bytes) Truncated }
{}

/// The bytes of a blob determine its spans: one for each geometry, the first that of the whole
/// geometry, from the blob's start to its end. If the blob begins later, the offset of each span
/// grows by as much, and nothing else changes.
pub fn spans()
    ensures one_list { (limits : Allowance) (bytes : List ℕ) (g : Tree) (start : ℕ)
        (a b : Blob limits bytes g) → spans_of_blob start a ≡ spans_of_blob start b }
    ensures one_each { (limits : Allowance) (bytes : List ℕ) (g : Tree) (start : ℕ)
        (b : Blob limits bytes g) → length (spans_of_blob start b) ≡ geometries g }
    ensures first { (limits : Allowance) (bytes : List ℕ) (g : Tree) (start : ℕ)
        (b : Blob limits bytes g) → CoversBlob start bytes g (spans_of_blob start b) }
    ensures moved { (limits : Allowance) (bytes : List ℕ) (g : Tree) (n start : ℕ)
        (b : Blob limits bytes g) → spans_of_blob (n + start) b ≡ map (moved_span n)
        (spans_of_blob start b) }
{}

/// A reader that notes spans while it takes items has noted the spans of the blob after the last
/// item. One more byte of a blob adds itself to the notes, if it is a type byte or a metadata byte,
/// and then the ends of the geometries that end with it; after the last byte the notes are the
/// spans of the blob. For this, an optional part that is expected at the byte must have a role that
/// is not noted.
pub fn noting()
    ensures whole { (limits : Allowance) (bytes : List ℕ) (g : Tree) (start : ℕ)
        (b : Blob limits bytes g) → noted start nothing no_notes b.items
        ≡ record { spans = spans_of_blob start b; begun = [] } }
    ensures goes_on { (limits : Allowance) (bytes : List ℕ) (e : Sums) (st : Stack) (held : List ℕ)
        (s : Stands limits bytes [] e st held) → NotesGoOn s }
    ensures ends { (limits : Allowance) (bytes : List ℕ) (e : Sums) (st : Stack) (held : List ℕ)
        (s : Stands limits bytes [] e st held) → NotesEnd s }
{}
