// No code: specs/Callers.antt says what a list of the library's calls on one record is, and that demand 3 holds of it; specs/AlikeRecords.antt what becomes of two
// records that are alike.
#![tactic(auto, using(kit::specs::Pick::picks))]
