ghost use Rattle.std.specs.Prelude.{◌≡◌, ◌↔◌, ℕ, ◌+◌, ◌*◌, ◌<◌, ◌⊎◌, List, ◌∷◌, slice_index};
ghost use Rattle.cri_frames.specs.Frames.{IsBad, IsLength};
ghost use Rattle.cri_frames.specs.Streams.{Frame, Splits};

/// A stream of bytes splits in exactly one way into whole frames and a rest that begins with none.
pub fn streams_split_one_way()
    ensures some { (stream : List ℕ) → ((at : ℕ) → slice_index stream at < 256) → (frames : List Frame)
        × (rest : List ℕ) × Splits stream frames rest }
    ensures only { (stream : List ℕ) (frames others : List Frame) (rest other : List ℕ)
        → Splits stream frames rest → Splits stream others other → (frames ≡ others) × (rest ≡ other) }
{}

/// Four bytes are not a frame's head if the first is neither 0 nor 2, or the other three are not a length.
pub fn bad_heads_are_as_stated()
    ensures { (first high middle low : ℕ) (more : List ℕ) → high < 256 → middle < 256 → low < 256
        → IsBad (first ∷ high ∷ middle ∷ low ∷ more) ↔ (((first ≡ 0) ⊎ (first ≡ 2))
        × IsLength (65536 * high + 256 * middle + low) → ⊥) }
{}
