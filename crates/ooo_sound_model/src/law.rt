//! Laws of bound models. Each function does nothing, and its contract is the law.

ghost use Rattle.ooo_sound_model.specs.Noted.{CallsAreNoted};
ghost use Rattle.ooo_sound_model.specs.Reports.{AllHaveNames, StopsInTime};
ghost use Rattle.ooo_sound_model.specs.Whole.{SoundByParts};

/// Each function that a body without breaches calls is one whose call is noted.
pub fn noted()
    ensures { CallsAreNoted }
{}

/// The stop time of a text's model, where it has one, is at most the greatest time.
pub fn stops()
    ensures { StopsInTime }
{}

/// Each process and each channel of a text's model has a name.
pub fn named()
    ensures { AllHaveNames }
{}

/// The model of a text is sound, where its bodies, names and calls are right.
pub fn sound_by_parts()
    ensures { SoundByParts }
{
    ooo_sound_walk::law::parts();
    ooo_sound_walk::law::names();
    ooo_sound_walk::law::clocks();
    ooo_sound_walk::law::closed();
    ooo_sound_walk::law::least();
}
