// No code: specs/ has what is promised now that the longest gap is gone, with the record's reader before it, and proofs/ shows it.
#![tactic(auto, using(kit::specs::Pick::picks))]
