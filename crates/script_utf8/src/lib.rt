// Whether bytes are surely well-formed UTF-8 (RFC 3629), by one walk without a branch, which a compiler makes many bytes at a time.
#![tactic(auto)]

ghost use Rattle.std.specs.Prelude.{◌≡◌, true};
ghost use Rattle.script_utf8.specs.Utf8.{is_utf8};
ghost use Rattle.script_utf8.specs.Sure.{wrong_at};

// Whether a byte behind p, q and r, the nearest first, is wrong there: it is a continuation byte exactly if one of them awaits it, it is
// none that no character has, and behind a first byte that asks for less than all continuation bytes it is one of those.
fn wrong(r: u8, q: u8, p: u8, e: u8) -> bool
    ensures { result ≡ wrong_at r q p e }
{
    let continues = (0x80 <= e) & (e < 0xC0);
    let awaited = (0xC2 <= p) | (0xE0 <= q) | (0xF0 <= r);
    let low = ((p == 0xE0) & (e < 0xA0)) | ((p == 0xF0) & (e < 0x90));
    let high = ((p == 0xED) & (0x9F < e)) | ((p == 0xF4) & (0x8F < e));
    let none = (e == 0xC0) | (e == 0xC1) | (0xF4 < e);
    (continues != awaited) | low | high | none
}

// Whether a text is surely UTF-8; no says nothing. It wants four bytes and more, the first two of them plain.
pub fn surely(text: &[u8]) -> bool
    ensures { result ≡ true → is_utf8 text.now ≡ true }
{
    let n = text.len();
    if n < 4 || 0x80 <= text[0] || 0x80 <= text[1] {
        return false;
    }
    let mut bad = wrong(0, 0, 0, text[2]);
    for i in 3..n {
        bad |= wrong(text[i - 3], text[i - 2], text[i - 1], text[i]);
    }
    let more = (0xC2 <= text[n - 1]) | (0xE0 <= text[n - 2]) | (0xF0 <= text[n - 3]);
    !(bad | more)
}
