//! What holds of every file that is accepted.
ghost use Rattle.std.specs.Prelude.{ℕ, List};
ghost use Rattle.elf_load.specs.Law.{AcceptedMeansImage};

/// Does nothing; says of all contents that, where no reason to refuse them stands, they mean an image.
pub fn accepted_means_image()
    ensures { (file : List ℕ) → (size : ℕ) → AcceptedMeansImage file size }
{}
