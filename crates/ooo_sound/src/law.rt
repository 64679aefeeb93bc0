//! The law of texts without breaches. Its function does nothing, and its contract is the law.

ghost use Rattle.ooo_sound.specs.Sound.{ModelsAreSound};

/// The bound model of a text without breaches is sound, where elaboration gives one.
pub fn sound()
    ensures { ModelsAreSound }
{
    ooo_sound_text::law::calls();
    ooo_sound_text::law::names();
    ooo_sound_text::law::members();
    ooo_sound_text::law::functions();
    ooo_sound_text::law::children();
    ooo_sound_text::law::edges();
    ooo_sound_text::law::no_cycle();
    ooo_sound_text::law::called();
    ooo_sound_text::law::methods();
    ooo_sound_text::law::bodies();
    ooo_sound_text::law::events();
    ooo_sound_text::law::modules();
    ooo_sound_text::law::instances();
    ooo_sound_walk::law::least();
    ooo_sound_model::law::noted();
    ooo_sound_model::law::sound_by_parts();
}
