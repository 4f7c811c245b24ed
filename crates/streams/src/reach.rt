// What a reference points to, be it shared or lent. The module is private, so these two kinds are all there are.

ghost use Rattle.std.specs.Prelude.{◌≡◌};

pub trait Reaches {
    type Seen;

    // what the reference points to
    ghost seen: { Self → Self.Seen };

    fn reach(&self) -> &Self::Seen
        ensures { result.now ≡ seen self.now };
}

impl<'b, S> Reaches for &'b S {
    type Seen = S;

    ghost seen = { λ s. s.now };

    fn reach(&self) -> &S {
        self
    }
}

impl<'b, S> Reaches for &'b mut S {
    type Seen = S;

    ghost seen = { λ s. s.now };

    fn reach(&self) -> &S {
        self
    }
}
