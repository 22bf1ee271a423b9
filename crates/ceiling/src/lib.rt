//! Theory of ceiling rules: what a rule means, its law, the formulas of the rules, and that they keep the law.
#![tactic(auto)]

ghost use Rattle.ceiling.specs.Laws.{FormulasStand, RulesAreLawful};

// The formulas give the smallest numbers that the rules name, and no others do.
pub fn formulas_stand()
    ensures { FormulasStand }
{}

// The degree rule and the pair rule are lawful, and so is the smaller of two lawful rules.
pub fn rules_are_lawful()
    ensures { RulesAreLawful }
{}
