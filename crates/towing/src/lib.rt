// No code: specs/ has what is promised of towing, with the readers and the rules before it, and proofs/ shows it.
#![tactic(auto, using(kit::specs::Pick::picks))]
