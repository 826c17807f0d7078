// The facts about the records of the edition of July 2001 that the promises about whole files rest on.
#![tactic(auto)]
