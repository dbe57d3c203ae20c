ghost use Rattle.std.specs.Prelude.{◌≡◌, ℕ, List, length, OnOk, IfSome};
ghost use Rattle.std.specs.declared.option.Option.{Option};
ghost use Rattle.mig_bytes.specs.Bytes.{AreBytes};
ghost use Rattle.mig_file.specs.Files.{IsThere};

use mig_bytes::Failed;

/// A file that can be read at any place, again and again. Nobody writes to it meanwhile.
pub trait PageFile {
    /// Its bytes, where it tells them.
    ghost bytes: { Self → Option (List ℕ) };

    /// Does nothing. Its bytes are below 256.
    fn has_bytes(&self)
        ensures { IfSome (bytes self.now) AreBytes };

    /// How many bytes it has.
    fn size(&self) -> u64
        ensures { IfSome (bytes self.now) (λ all. result ≡ length all) };

    /// Fills the buffer with the bytes from this place on. It fails where there are too few, too.
    fn read_at(&self, at: u64, buf: &mut [u8]) -> Result<(), Failed>
        ensures bytes { OnOk result (IfSome (bytes self.now) (λ all. IsThere all at buf.new)) }
        ensures room { length buf.new ≡ length buf.old };
}
