// The sets of characters that the steps tell apart. Total.
ghost use Rattle.std.specs.Prelude.{◌≡◌};
ghost use Rattle.text_input_parts.specs.Sets.{parameter, final, string_end, up_to7_f, newline_char};

use scalars::{BEL, CAN, DEL};

// 20..3F.
#[tactic(auto, unfolding(crate::specs::Sets::parameter))]
pub fn is_parameter(c: u32) -> bool
    ensures { result ≡ parameter c }
{
    (0x20 <= c) & (c <= 0x3f)
}

// 40..7E, or CAN.
pub fn is_final(c: u32) -> bool
    ensures { result ≡ final c }
{
    (0x40 <= c) & (c <= 0x7e) | (c == CAN)
}

// BEL or CAN.
#[tactic(auto, unfolding(crate::specs::Sets::string_end))]
pub fn is_string_end(c: u32) -> bool
    ensures { result ≡ string_end c }
{
    (c == BEL) | (c == CAN)
}

// Up to 7F.
#[tactic(auto, unfolding(crate::specs::Sets::up_to7_f))]
pub fn up_to_del(c: u32) -> bool
    ensures { result ≡ up_to7_f c }
{
    c <= DEL
}

// 0A or 0D.
#[tactic(auto, unfolding(crate::specs::Sets::newline_char))]
pub fn is_newline_char(c: u32) -> bool
    ensures { result ≡ newline_char c }
{
    (c == 0xa) | (c == 0xd)
}
