//! Laws of the stock.

ghost use Rattle.sc_flatten.specs.Laws.{StocksAreProblems, StocksStay, MeaningsAgree, SortsStay, StocksStaySorted, StocksHavePlainForms, StocksFit, StocksArePosed, StocksHaveDiffs, StocksNameNoDiffs, LeastsAreOfClasses, ComponentsAscend};

use sc_terms::{bank_meanings_fit, meanings_fit};

/// The stock of a bank's formulas is a problem: its numbers name what is there, nothing is a part of itself, and each set term but the empty sets has its component.
pub fn stocks_are_problems()
    ensures { StocksAreProblems }
{}

/// What is put into a bank later changes no stock of what it had: the stock of a bank's formulas is the same problem over each bank that begins with this one.
pub fn stocks_stay()
    ensures { StocksStay }
{}

/// Under each interpretation of the constants a root of the stock is true exactly where its assertion is true in the bank.
pub fn meanings_agree()
    ensures { MeaningsAgree }
{
    meanings_fit();
    bank_meanings_fit();
}

/// The constants that the stock names have the sorts that they have in the bank.
pub fn sorts_stay()
    ensures { SortsStay }
{}

/// The stock of a well-sorted bank is well sorted.
pub fn stocks_stay_sorted()
    ensures { StocksStaySorted }
{}

/// The forms of a stock's inequalities and Int terms have Int constants and cards of sets alone, as a bank's have.
pub fn stocks_have_plain_forms()
    ensures { StocksHavePlainForms }
{}

/// Under an interpretation under which each number that an evaluation of the assertions meets fits 128 bits, so does each that one of the stock's nodes meets: each product of a form, each size in one, each Int term's value and each left side of an inequality.
pub fn stocks_fit()
    ensures { StocksFit }
{
    meanings_fit();
    bank_meanings_fit();
}

/// The two sides of each equation of sets in a stock, where they differ, have their differing element there.
pub fn stocks_have_diffs()
    ensures { StocksHaveDiffs }
{}

/// No equation, membership or set of one element of a stock names a differing element.
pub fn stocks_name_no_diffs()
    ensures { StocksNameNoDiffs }
{}

/// Two set terms have one component exactly where they are linked, directly or over others, by arguments and equations: the numbers of components' least set terms are the least of the classes of the smallest equivalence that holds the links.
pub fn leasts_are_of_classes()
    ensures { LeastsAreOfClasses }
{}

/// Components come in the order of their least set terms, and each has its set terms in order: the n-th component is the class of the n-th set term, empty sets aside, that is the least of its class.
pub fn components_ascend()
    ensures { ComponentsAscend }
{}

/// The stock of formulas of a bank may be decided, where the bank is well sorted, its constants have sorts that are known, and it has no inequality, no Int term and no card. So the stock is well sorted, sets that it says to be equal have their differing element, which nothing names, and each constant has one node, since the sort that is known for it tells which node that is. Under every interpretation a root is true exactly where its assertion is, and what fits 128 bits in the assertions does in the stock.
pub fn stocks_are_posed()
    ensures { StocksArePosed }
{
    meanings_fit();
    bank_meanings_fit();
}
