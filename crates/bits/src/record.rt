// Records one after another: each written into the bytes behind the one before it.
ghost use Rattle.std.specs.Prelude.{◌≡◌, ◌++◌, ◌*◌, ◌≤◌, ℕ, List, length, drop};
ghost use Rattle.std.specs.List.{All, flat_map};

// How things of one kind are written, each as a record of so many bytes.
pub trait Record {
    type Kind: Copy;

    const BYTES: usize;

    ghost BYTES: { ℕ };

    // A thing's bytes.
    ghost record_bytes: { Self.Kind → List ℕ };

    // Each number of it fits its field.
    ghost fits: { Self.Kind → Type 0 };

    fn put(out: &mut [u8], thing: Self::Kind)
        requires room { BYTES ≤ length out.old }
        requires fields { fits thing }
        ensures { out.new ≡ record_bytes thing ++ drop BYTES out.old };

    ghost record_long: { (x : Self.Kind) → length (record_bytes x) ≡ BYTES };
}

// Their records from the front of out.
pub fn put_records<R: Record>(out: &mut [u8], things: &[R::Kind])
    requires room { R.BYTES * length things.now ≤ length out.old }
    requires fields { All R.fits things.now }
    ensures { out.new ≡ flat_map R.record_bytes things.now ++ drop (R.BYTES * length things.now) out.old }
{
    for (i, thing) in things.iter().enumerate() {
        R::put(&mut out[R::BYTES * i..], *thing);
    }
}
