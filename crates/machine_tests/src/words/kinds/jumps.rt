//! Words of jumps and branches, and what binutils' objdump says of each.
// Written by tools/walk. Do not edit.

/// Words with what they say: the mnemonic, and the operands as numbers.
pub static JUMPS: &str = "\
011800e3 beq 16 17 2048\n\
02510763 beq 2 5 46\n\
0b9a0463 beq 20 25 168\n\
3e9382e3 beq 7 9 3044\n\
408e8f63 beq 29 8 1054\n\
559e8de3 beq 29 25 3418\n\
7eec02e3 beq 24 14 4068\n\
81d607e3 beq 12 29 -2034\n\
aaa08ae3 beq 1 10 -1356\n\
bf0082e3 beq 1 16 -1052\n\
c0f98a63 beq 19 15 -3052\n\
fe350763 beq 10 3 -2066\n\
000b9b63 bne 23 0 22\n\
03081e63 bne 16 16 60\n\
0a649be3 bne 9 6 2230\n\
3f6b1c63 bne 22 22 1016\n\
40439463 bne 7 4 1032\n\
55b217e3 bne 4 27 3406\n\
7f3f1be3 bne 30 19 4086\n\
81a71063 bne 14 26 -4096\n\
abe49c63 bne 9 30 -3400\n\
bf229c63 bne 5 18 -3080\n\
c1fc9763 bne 25 31 -3058\n\
fefe13e3 bne 28 15 -26\n\
0018cf63 blt 17 1 30\n\
0212c463 blt 5 1 40\n\
0a8844e3 blt 16 8 2216\n\
3e9bc8e3 blt 23 9 3056\n\
4191cee3 blt 3 25 3100\n\
55af4963 blt 30 26 1362\n\
7fabc163 blt 23 26 2018\n\
80e34363 blt 6 14 -4090\n\
ab2442e3 blt 8 18 -1372\n\
be844563 blt 8 8 -3094\n\
c1afce63 blt 31 26 -3044\n\
fe25c3e3 blt 11 2 -26\n\
018055e3 bge 0 24 2058\n\
03b6dee3 bge 13 27 2108\n\
0b7edde3 bge 29 23 2234\n\
3f2ed3e3 bge 29 18 3046\n\
4058d063 bge 17 5 1024\n\
547fd4e3 bge 31 7 3400\n\
7fe4dae3 bge 9 30 4084\n\
802dd1e3 bge 27 2 -2046\n\
aba756e3 bge 14 26 -1364\n\
becc55e3 bge 24 12 -1046\n\
c081d7e3 bge 3 8 -1010\n\
fefadfe3 bge 21 15 -2\n\
01566be3 bltu 12 21 2070\n\
03ef69e3 bltu 30 30 2098\n\
0b2ce2e3 bltu 25 18 2212\n\
3e796f63 bltu 18 7 1022\n\
41de6ce3 bltu 28 29 3096\n\
540f66e3 bltu 30 0 3404\n\
7f456863 bltu 10 20 2032\n\
8043e763 bltu 7 4 -4082\n\
aa586be3 bltu 16 5 -1354\n\
bf6161e3 bltu 2 22 -1054\n\
c06c6163 bltu 24 6 -3070\n\
fef9e963 bltu 19 15 -2062\n\
0012fa63 bgeu 5 1 20\n\
0259f8e3 bgeu 19 5 2096\n\
0a6471e3 bgeu 8 6 2210\n\
3f0178e3 bgeu 2 16 3056\n\
41a273e3 bgeu 4 26 3078\n\
547f7ce3 bgeu 30 7 3416\n\
7e027463 bgeu 4 0 2024\n\
802c72e3 bgeu 24 2 -2044\n\
abda71e3 bgeu 20 29 -1374\n\
bff87ae3 bgeu 16 31 -1036\n\
c165fb63 bgeu 11 22 -3050\n\
ffe1fc63 bgeu 3 30 -2056\n\
00a50d67 jalr 26 10 10\n\
03370ee7 jalr 29 14 51\n\
0a660867 jalr 16 12 166\n\
3f2584e7 jalr 9 11 1010\n\
41dc8ae7 jalr 21 25 1053\n\
544e0b67 jalr 22 28 1348\n\
7f480467 jalr 8 16 2036\n\
811208e7 jalr 17 4 -2031\n\
aae30b67 jalr 22 6 -1362\n\
bf430de7 jalr 27 6 -1036\n\
c1878667 jalr 12 15 -1000\n\
ff3b84e7 jalr 9 23 -13\n\
006a8aef jal 21 688134\n\
023e026f jal 4 919586\n\
0ba1836f jal 6 98490\n\
3e880a6f jal 20 525288\n\
40b788ef jal 17 494602\n\
55360aef jal 21 396626\n\
7e97896f jal 18 495592\n\
805c0fef jal 31 -260092\n\
aa0b826f jal 4 -294240\n\
bf0c00ef jal 1 -261136\n\
c168826f jal 4 -490474\n\
ff2e00ef jal 1 -129038\n\
00a210ef jal 1 135178\n\
021c10ef jal 1 792608\n\
0b619e6f jal 28 102582\n\
3efc926f jal 4 826350\n\
417818ef jal 17 531478\n\
550f90ef jal 1 1021264\n\
7ffb926f jal 4 761854\n\
81c7916f jal 2 -552932\n\
aa73946f jal 8 -812378\n\
bf5392ef jal 5 -812044\n\
c14c936f jal 6 -224236\n\
ffb390ef jal 1 -811014\n\
00b32eef jal 29 206858\n\
03e4266f jal 12 270398\n\
0aaf236f jal 6 991402\n\
3edfa86f jal 16 1027052\n\
40bca06f jal 0 830474\n\
55df286f jal 16 994652\n\
7fc42a6f jal 20 272380\n\
80af23ef jal 7 -57334\n\
ab0fa36f jal 6 -23888\n\
bf5b2e6f jal 28 -316428\n\
c0d3ac6f jal 24 -807924\n\
fffb206f jal 0 -315394\n\
019e39ef jal 19 931864\n\
02c7b5ef jal 11 503852\n\
0af83aef jal 21 538798\n\
3ea23f6f jal 30 144362\n\
414f36ef jal 13 996372\n\
54fb3bef jal 23 736590\n\
7ef1b2ef jal 5 114670\n\
80bd3a6f jal 20 -182262\n\
aa4d3bef jal 23 -183644\n\
bfafb9ef jal 19 -19462\n\
c1e5b8ef jal 17 -674786\n\
fe24beef jal 29 -739358\n\
0164c3ef jal 7 311318\n\
0331416f jal 2 84018\n\
0bcbcaef jal 21 770236\n\
3ff44eef jal 29 281598\n\
418ec46f jal 8 967704\n\
54e24e6f jal 28 148814\n\
7e9ece6f jal 28 970728\n\
8143cc6f jal 24 -802796\n\
aafe446f jal 8 -111954\n\
bf3fccef jal 25 -13326\n\
c0574f6f jal 30 -570364\n\
ff0ec76f jal 14 -79888\n\
000f526f jal 4 1003520\n\
0271d76f jal 14 120870\n\
0b6e51ef jal 3 938166\n\
3f5d5cef jal 25 875508\n\
418055ef jal 11 21528\n\
558dd86f jal 16 906584\n\
7fd7d26f jal 4 516092\n\
8188576f jal 14 -503784\n\
abee58ef jal 17 -109890\n\
be74d66f jal 12 -730138\n\
c18c576f jal 14 -240616\n\
fea4d3ef jal 7 -731158\n\
01276bef jal 23 483346\n\
03c262ef jal 5 155708\n\
0bfc65ef jal 11 813246\n\
3fd3ecef jal 25 257020\n\
40d0ecef jal 25 60428\n\
546a6d6f jal 26 681286\n\
7f676def jal 27 485366\n\
8010e7ef jal 15 -989184\n\
aa61646f jal 8 -957786\n\
beec696f jal 18 -236562\n\
c00b686f jal 16 -302080\n\
ff73636f jal 6 -823306\n\
0010f2ef jal 5 63488\n\
0278f2ef jal 5 587814\n\
0b59f5ef jal 11 653492\n\
3f9677ef jal 15 424952\n\
41937aef jal 21 228376\n\
55dff4ef jal 9 1047900\n\
7fe4f8ef jal 17 325630\n\
81287e6f jal 28 -495598\n\
aa7273ef jal 7 -886106\n\
be35ffef jal 31 -656414\n\
c0477b6f jal 22 -560124\n\
fe2ef56f jal 10 -67614";
