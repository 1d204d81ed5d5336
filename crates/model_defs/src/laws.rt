//! Laws: what is proved of definitions.
ghost use Rattle.model_defs.specs.Laws.{TextsGiveOneModel};

/// A text is the definition of one model at most.
pub fn texts_give_one_model()
    ensures { TextsGiveOneModel }
{}
