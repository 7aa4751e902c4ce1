// A page: lent memory with a text at its front, to which pieces are put one after the other.
ghost use Rattle.std.specs.Prelude.{◌≡◌, ◌++◌, ◌+◌, ◌*◌, length};
ghost use Rattle.sfc_listing.specs.Text.{decimal, hex};
ghost use Rattle.sfc_listing.specs.Page.{HasRoom, Puts};

// A piece goes to `at`, and the place after it is the next one's. That it fits is known before it is put, so that no put can
// fail; a `fmt::Write` may always fail, and `write!` with it. The room is no ghost field: each call moves the page on, so each
// says what room it wants; the bound on the places that are told (65536) is asked beside it.
#[derive(Drop)]
pub(crate) struct Page<'a> {
    out: &'a mut [u8],
    at: usize,
}

impl<'a> Page<'a> {
    pub(crate) fn new(out: &'a mut [u8]) -> Page<'a>
        ensures memory { result.out.ghost_name ≡ out.entry.ghost_name }
        ensures blank { (result.out.now ≡ out.old) × (result.at ≡ 0) }
    {
        Page { out, at: 0 }
    }

    // How many bytes the text has.
    pub(crate) fn length(&self) -> usize
        ensures { result ≡ self.now.at }
    {
        self.at
    }

    pub(crate) fn put(&mut self, text: &str)
        requires { HasRoom (length text.now) self.old }
        ensures { Puts (length text.now) self.old text.now self.new }
    {
        let end = self.at + text.len();
        self.out[self.at..end].copy_from_slice(text.as_bytes());
        self.at = end;
    }

    pub(crate) fn put_decimal(&mut self, value: u64)
        requires { HasRoom 20 self.old }
        ensures { Puts 20 self.old (decimal value) self.new }
    {
        let mut digits = itoa::Buffer::new();
        self.put(digits.format(value));
    }

    pub(crate) fn put_hex(&mut self, bytes: &[u8])
        requires { HasRoom (2 * length bytes.now) self.old }
        ensures { Puts (2 * length bytes.now) self.old (hex bytes.now) self.new }
    {
        let end = self.at + 2 * bytes.len();
        hex::encode_to_slice(bytes, &mut self.out[self.at..end]).unwrap();
        self.at = end;
    }

    // A value after the text that names it.
    pub(crate) fn put_value(&mut self, name: &str, value: u64)
        requires { HasRoom (length name.now + 20) self.old }
        ensures { Puts (length name.now + 20) self.old (name.now ++ decimal value) self.new }
    {
        self.put(name);
        self.put_decimal(value);
    }
}
