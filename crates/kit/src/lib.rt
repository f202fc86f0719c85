// No code: specs/Pick.antt has the choice by a test that every definition uses, and the rules that close a return.
#![tactic(auto)]
