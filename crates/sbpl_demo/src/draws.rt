//! Numbers drawn from a seed.

ghost use Rattle.std.specs.Prelude.{◌≡◌, ◌/◌, ◌^◌, ◌<◌};
ghost use Rattle.sbpl_demo.specs.Generator.{next_word, shown};

/// The generator: a word of 64 bits, which each draw replaces.
#[derive(Drop)]
pub(crate) struct Draws {
    word: u64,
}

impl Draws {
    /// The generator that begins with a seed.
    pub(crate) fn of(seed: u64) -> Draws
        ensures word { result.word ≡ seed }
    {
        Draws { word: seed }
    }

    /// Replaces the word by the next one, and answers its upper 31 bits.
    #[tactic(auto, unfolding(crate::specs::Generator::next_word, crate::specs::Generator::shown))]
    pub(crate) fn draw(&mut self) -> u64
        ensures word { self.new.word ≡ next_word self.old.word }
        ensures drawn { result ≡ shown (next_word self.old.word) }
    {
        self.word = self
            .word
            .wrapping_mul(6_364_136_223_846_793_005)
            .wrapping_add(1_442_695_040_888_963_407);
        self.word >> 33
    }
}
