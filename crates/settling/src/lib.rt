// No code: specs/ has what is promised of cruise, and proofs/ shows it.
#![tactic(auto, using(kit::specs::Pick::picks))]
