//! Laws: what is proved of the commands' definitions.
ghost use Rattle.commands.specs.Defined.{TextsDefineOneList};
ghost use Rattle.commands.specs.Scans.{PartsAreTheRun};

use model_defs::laws::texts_give_one_model;

/// The model definitions of a run hang on the texts that are handed in alone.
pub fn texts_define_one_list()
    ensures { TextsDefineOneList }
{
    texts_give_one_model()
}

/// What `scans` says of a core in parts is one site run, from the opening of the site and the program: the program is
/// accepted by the verdict, and the core stands at the run of all events of its scans, each as the program means it.
pub fn parts_are_the_run()
    ensures { PartsAreTheRun }
{}
