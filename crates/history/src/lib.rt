// No code: specs/ has what lists of event words show of a car, one word and its neighbours first.
#![tactic(auto, using(kit::specs::Pick::picks))]
