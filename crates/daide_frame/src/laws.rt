//! What holds of the definitions by themselves. Each law is a function with no parameters and an
//! empty body; its `ensures` is the law.

ghost use Rattle.std.specs.Prelude.{◌≡◌, ◌≤◌, ◌<◌, ◌^◌, ◌++◌, ℕ, List, [], length, drop, true, Ok};
ghost use Rattle.daide_frame.specs.Frames.{first_items, frame_events_of, fed, fed_items, missing, cut, items_by_byte, frame_end, moved, or_nothing};
ghost use Rattle.daide_frame.specs.Head.{has_right_length, parse_head, head_bytes};
ghost use Rattle.daide_frame.specs.declared.head.Head.{Head};

/// A header that was written is read back, if its length is right for its kind and at most the cap.
pub fn head_comes_back()
    ensures { (head : Head) (cap : ℕ) → head.len < 2 ^ 16 → has_right_length head.kind head.len ≡ true → head.len ≤ cap
        → parse_head (head_bytes head) cap ≡ Ok head }
{}

/// The items of a frame do not depend on the pieces in which its bytes are fed.
pub fn any_pieces_agree()
    ensures { (cap : ℕ) (bytes piece : List ℕ) → length piece ≤ missing cap bytes
        → frame_events_of (first_items cap (fed cap bytes piece))
        ≡ frame_events_of (first_items cap bytes) ++ fed_items cap bytes piece }
{}

/// The cut of a list of bytes is the items of its first frame, then the cut of what follows that frame. So each list
/// has one cut, and no frame is left out.
pub fn frames_follow_one_another()
    ensures { (cap : ℕ) (bytes : List ℕ) → cut cap bytes ≡ first_items cap bytes
        ++ or_nothing (λ len. moved len (cut cap (drop len bytes))) (frame_end (first_items cap bytes)) }
{}

/// A search byte by byte finds the items of the cut, place for place. It drops the pending bytes at each whole frame,
/// and finds nothing after a fault.
pub fn frames_are_found_byte_by_byte()
    ensures { (cap : ℕ) (bytes : List ℕ) → items_by_byte cap 0 [] bytes ≡ cut cap bytes }
{}
