//! What a row does among the objects of ES3. There is no code: the definitions stand in specs/.
//!
//! What marks objects bear is specs/Marks.antt; the built-in functions and the records of them as objects, specs/Natives.antt; what a row does, specs/Doing.antt;
//! and a store in which a page begins, specs/Opening.antt.
#![tactic(auto)]
