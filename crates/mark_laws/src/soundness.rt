//! A sound world stays sound.
ghost use Rattle.mark_laws.specs.Soundness.{SoundStays};

/// No possible event leaves a sound world that is not sound.
pub fn laws_of_soundness()
    ensures { SoundStays }
{}
