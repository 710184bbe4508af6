ghost use Rattle.std.specs.Prelude.{◌≡◌, Bool, true, false, List, [], ◌∷◌, ◌++◌};
ghost use Rattle.stream.specs.declared.sample.Sample.{Sample};

use stream::Sample;

/// What judges samples one after another. Its meaning has two parts, each of which says of every list of samples that may still come whether the monitor fails on it:
/// `fails_now` as it stands, and `fails_new` once it is renewed. It is lost where it fails, as it stands, on the empty list.
pub trait Monitor {
    ghost fails_now: { Self → List Sample → Bool };

    ghost fails_new: { Self → List Sample → Bool };

    /// Takes the next sample into account, and answers whether the monitor is now lost.
    fn judge(&mut self, sample: Sample) -> bool
        ensures after { (l : List Sample) → fails_now self.new l ≡ fails_now self.old (sample ∷ l) }
        ensures keeps { (l : List Sample) → fails_new self.new l ≡ fails_new self.old l }
        ensures answer { result ≡ fails_now self.new [] };

    /// Whether the monitor is lost.
    fn lost(&self) -> bool
        ensures { result ≡ fails_now self.now [] };

    /// Begins as new.
    fn renew(&mut self)
        ensures after { (l : List Sample) → fails_now self.new l ≡ fails_new self.old l }
        ensures keeps { (l : List Sample) → fails_new self.new l ≡ fails_new self.old l };

    ghost lasting_now: { (m : Self) (l k : List Sample) → fails_now m l ≡ true → fails_now m (l ++ k) ≡ true };

    ghost lasting_new: { (m : Self) (l k : List Sample) → fails_new m l ≡ true → fails_new m (l ++ k) ≡ true };

    ghost starts: { (m : Self) → fails_new m [] ≡ false };
}
