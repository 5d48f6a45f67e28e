ghost use Rattle.std.specs.Prelude.{◌≡◌};
ghost use Rattle.media.specs.Carry.{Carry};

// A medium. Its meaning is two yes-or-no answers, with the law on sends. Asking changes nothing.
pub trait Medium {
    ghost carries: { Self → Carry };

    // Whether i may output to j with so many messages on the way from i to j.
    fn sends(&self, i: usize, j: usize, on_the_way: usize) -> bool
        ensures { result ≡ (carries self.now).send i j on_the_way };

    // Whether j may input a message of i with so many others ahead of it.
    fn takes(&self, i: usize, j: usize, ahead: usize) -> bool
        ensures { result ≡ (carries self.now).take i j ahead };
}
