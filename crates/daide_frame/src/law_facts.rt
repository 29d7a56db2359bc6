//! Uses each law of `laws` once, at concrete values, so that a weaker law does not check. Nothing here is called.

ghost use Rattle.std.specs.Prelude.{◌≡◌, ◌≤◌, ℕ, [], ◌∷◌, Ok};
ghost use Rattle.daide_frame.specs.Frames.{Begun, Whole, cut, fed, fed_items, first_items, items_by_byte, frame_events_of};
ghost use Rattle.daide_frame.specs.Head.{parse_head};
ghost use Rattle.daide_frame.specs.declared.head.Kind.TheVariants.{Dm, Fm};

use crate::laws;

/// The header of a message of 65,526 bytes is read back under each cap that allows it. The last two bytes of a header
/// give the same events as one piece of two bytes. Two final messages are two frames, whether the list is cut at once
/// or byte by byte.
fn frames_at_values()
    ensures head { (cap : ℕ) → 65526 ≤ cap →
        parse_head (0x02 ∷ 0x00 ∷ 0xFF ∷ 0xF6 ∷ []) cap ≡ Ok (record { kind = Dm; len = 65526 }) }
    ensures pieces { (high low : ℕ) →
        frame_events_of (first_items 1024 (fed 1024 (0x02 ∷ 0x00 ∷ []) (high ∷ low ∷ [])))
        ≡ fed_items 1024 (0x02 ∷ 0x00 ∷ []) (high ∷ low ∷ []) }
    ensures follow { cut 1024 (0x03 ∷ 0x00 ∷ 0x00 ∷ 0x00 ∷ 0x03 ∷ 0x00 ∷ 0x00 ∷ 0x00 ∷ [])
        ≡ record { item = Begun (record { kind = Fm; len = 0 }); at = 4 }
        ∷ record { item = Whole (record { kind = Fm; len = 0 }) []; at = 4 }
        ∷ record { item = Begun (record { kind = Fm; len = 0 }); at = 8 }
        ∷ record { item = Whole (record { kind = Fm; len = 0 }) []; at = 8 } ∷ [] }
    ensures by_byte { items_by_byte 1024 0 [] (0x03 ∷ 0x00 ∷ 0x00 ∷ 0x00 ∷ 0x03 ∷ 0x00 ∷ 0x00 ∷ 0x00 ∷ [])
        ≡ record { item = Begun (record { kind = Fm; len = 0 }); at = 4 }
        ∷ record { item = Whole (record { kind = Fm; len = 0 }) []; at = 4 }
        ∷ record { item = Begun (record { kind = Fm; len = 0 }); at = 8 }
        ∷ record { item = Whole (record { kind = Fm; len = 0 }) []; at = 8 } ∷ [] }
{
    laws::head_comes_back();
    laws::any_pieces_agree();
    laws::frames_follow_one_another();
    laws::frames_are_found_byte_by_byte();
}
