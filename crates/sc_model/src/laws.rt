//! Laws of paths and their models.

ghost use Rattle.sc_model.specs.Modelling.{ReadOffValuesShow, SettledPathsHaveModels};

use sc_sorts::sorts_match;
use sc_terms::meanings_fit;

/// The values that are read off a settled path make the problem true.
pub fn settled_paths_have_models()
    ensures { SettledPathsHaveModels }
{
    meanings_fit();
    sorts_match();
}

/// Values that are read off any path, make the roots true, and give the nodes numbers that fit 128 bits, make the problem true: they name its constants alone.
pub fn read_off_values_show()
    ensures { ReadOffValuesShow }
{}
