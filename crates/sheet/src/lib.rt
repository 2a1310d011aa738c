// The bench sheet's starred lines, stated over the images as bytes and proved of the definitions themselves. There is no code here.
#![tactic(auto)]
